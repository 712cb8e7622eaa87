//! The steps by their numbers.
ghost use Rattle.std.specs.Prelude.{◌≡◌, ◌≤◌, ◌<◌};

use crate::shrinking::part::Part;

/// A step: it leaves out a piece of a part.
#[derive(Clone, Copy)]
pub(crate) struct Step {
    pub(crate) number: u64,
    pub(crate) part: Part,
    /// How many pieces the part is cut into, a power of 2.
    pub(crate) pieces: u64,
    /// Which of the pieces, from 0.
    pub(crate) piece: u64,
    ghost within: { piece < pieces },
}

impl Step {
    /// The step of this number. After the steps that leave out a whole part come those that leave out a half, and so on; of
    /// as many pieces, part by part.
    pub(crate) fn numbered(number: u64) -> Step
        ensures { result.number ≡ number }
    {
        let parts = Part::ALL.len() as u64;
        let pieces = greatest_power(number / parts + 1);
        let place = number - parts * (pieces - 1);
        let part = match Part::ALL.get((place / pieces) as usize) {
            Some(part) => *part,
            None => Part::Allowance,
        };
        Step {
            number,
            part,
            pieces,
            piece: place % pieces,
        }
    }
}

/// The greatest power of 2 that isn't above this number.
fn greatest_power(number: u64) -> u64
    requires { 1 ≤ number }
    ensures some { 1 ≤ result }
    ensures below { result ≤ number }
{
    1 << number.ilog2()
}
