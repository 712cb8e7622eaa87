//! The names of classes that a dump doesn't name.
ghost use Rattle.std.specs.Prelude.{◌≡◌};
ghost use Rattle.heap_dump.specs.ClassNames.{first_name};

/// The number of the first class of the dump.
pub(crate) const FIRST_CLASS: u32 = 10;

/// The name of a number below [`FIRST_CLASS`]: 1 to 8 are the arrays of primitive values.
pub(crate) fn first_name(number: u32) -> &'static str
    ensures { result.now ≡ first_name number }
{
    match number {
        0 => "[?",
        1 => "[Z",
        2 => "[C",
        3 => "[F",
        4 => "[D",
        5 => "[B",
        6 => "[S",
        7 => "[I",
        8 => "[J",
        9 => "java.lang.Class",
        _ => "?",
    }
}
