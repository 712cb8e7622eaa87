//! The conditions of fault 4, for detailed messages.
ghost use Rattle.std.specs.Prelude.{◌≡◌, ◌↔◌, Some, IfSome, IsTrue, is_some};
ghost use Rattle.heap_image.specs.ImageText.{front_faults, first_some};
ghost use Rattle.heap_image.specs.LengthCause.{first_length_cause};

use crate::Fault;
use crate::io::front::{FRONT_BYTES, Front};
use std::error::Error;
use std::fmt;

/// Why a front has fault 4: the first of these conditions that holds.
#[derive(Debug, Clone, Copy, PartialEq, Eq)]
pub enum LengthCause {
    /// There are no words.
    NoWords,
    /// The words don't fill their last region.
    PartialRegion,
    /// There are more words than the version allows, which is this number.
    TooManyWords(u64),
    /// There are more regions than the version allows, which is this number.
    TooManyRegions(u64),
    /// The count at offset 12, of live addresses or of roots, is above the number of words.
    CountAboveWords,
}

impl LengthCause {
    /// The cause of fault 4 of a text that begins with these bytes. Returns `None` exactly if the first fault of the
    /// front is another one, or it has none.
    pub fn of(front: &[u8; FRONT_BYTES]) -> Option<LengthCause>
        ensures cause { IfSome result (λ cause. first_length_cause front.now ≡ Some cause) }
        ensures only { IsTrue (is_some result) ↔ (first_some (front_faults front.now) ≡ Some Fault.Length) }
    {
        match Front::parse_unvalidated(front) {
            Ok(parsed) => parsed.length_cause(),
            Err(_) => None,
        }
    }
}

impl fmt::Display for LengthCause {
    fn fmt<W: fmt::Write>(&self, f: &mut fmt::Formatter<W>) -> fmt::Result {
        f.write_str(match self {
            LengthCause::NoWords => "the number of words is 0",
            LengthCause::PartialRegion => {
                "the number of words is not a multiple of the words of a region"
            }
            LengthCause::TooManyWords(most) => {
                return write!(f, "the number of words is above {most}");
            }
            LengthCause::TooManyRegions(most) => {
                return write!(f, "there are more than {most} regions");
            }
            LengthCause::CountAboveWords => "there are more live addresses or roots than words",
        })
    }
}

impl Error for LengthCause {}
