//! Messages of `heap_text` that the program doesn't print. `tests/cli/test_text.py` has the other errors, and texts from devices.
use crate::checks::equal;
use heap_text::{AssembleError, TextError};
use std::test::Fail;

#[test]
fn errors_of_memory_and_devices_have_their_texts(rt: HostRuntime) -> Result<(), Fail> {
    let memory = TextError::Memory;
    let (device, text) = (AssembleError::Device, AssembleError::Text(memory));
    let said = format!(in rt.alloc(); "{memory}, {device}, {text}")?;
    let wanted = "memory was refused, the device failed, memory was refused";
    equal(&rt, said.as_str(), wanted);
    Ok(())
}
