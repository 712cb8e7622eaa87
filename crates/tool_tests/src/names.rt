//! The name of a folder in a picture, which no command can show. `tests/cli/test_map.py` has names of files.
use crate::checks::equal;
use heap_map::write_name;
use std::test::Fail;

#[test]
fn a_folder_has_an_empty_name(rt: HostRuntime) -> Result<(), Fail> {
    let mut text = String::new(rt.alloc());
    write_name(&mut text, "folder/")?;
    equal(&rt, text.as_str(), "");
    Ok(())
}
