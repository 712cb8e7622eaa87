//! How an image differs from the compaction of another.
ghost use Rattle.std.specs.Prelude.{◌≡◌, IfOk, string_bytes};
ghost use Rattle.command_support.specs.Json.{difference_object, placed};

use std::alloc::{AllocError, Global};
use std::fmt;

/// The first difference between an image and the compaction of another.
#[derive(Clone, Copy)]
pub enum Difference {
    /// The region log, the allowance, the version, or the number of words, live objects or roots.
    Shape,
    /// The words at this address.
    Word(u64),
    /// The live addresses at this index.
    Live(u64),
    /// The roots at this index.
    Root(u64),
}

impl Difference {
    /// The JSON object that `verify` prints of it, on a line.
    pub fn object(self, alloc: Global) -> Result<String, AllocError>
        ensures { IfOk result (λ object. string_bytes object ≡ difference_object self) }
    {
        match self {
            Difference::Shape => String::from_str(
                alloc,
                "{\"same\":false,\"differs\":\"shape\"}\n",
            ),
            Difference::Word(address) => placed(alloc, "word", address),
            Difference::Live(index) => placed(alloc, "live", index),
            Difference::Root(index) => placed(alloc, "root", index),
        }
    }
}

/// The object of a difference at this number.
fn placed(alloc: Global, place: &str, number: u64) -> Result<String, AllocError>
    ensures { IfOk result (λ object. string_bytes object ≡ placed place.now number) }
{
    let mut object = String::new(alloc);
    writeln!(
        object,
        "{{\"same\":false,\"differs\":\"{place}\",\"at\":{number}}}"
    )?;
    Ok(object)
}

impl fmt::Display for Difference {
    fn fmt<W: fmt::Write>(&self, f: &mut fmt::Formatter<W>) -> fmt::Result {
        let (place, number) = match self {
            Difference::Shape => return f.write_str("shape"),
            Difference::Word(address) => ("word", *address),
            Difference::Live(index) => ("live", *index),
            Difference::Root(index) => ("root", *index),
        };
        write!(f, "{place} {number}")
    }
}
