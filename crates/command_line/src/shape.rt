//! The region log and the allowance with which an image is read.
ghost use Rattle.std.specs.Prelude.{◌≡◌, None};

use clap::ArgMatches;

/// What an image is read with, in place of what is in its head.
#[derive(Clone, Copy)]
pub struct Shape {
    /// The binary logarithm of the region size in words, if another than the head's.
    pub region_log: Option<u32>,
    /// The number of dead words that the dense prefix may keep, if another than the head's.
    pub allowance: Option<u64>,
}

impl Shape {
    /// The shape that changes nothing.
    pub fn unchanged() -> Shape
        ensures region_log { result.region_log ≡ None }
        ensures allowance { result.allowance ≡ None }
    {
        Shape {
            region_log: None,
            allowance: None,
        }
    }

    pub(crate) fn of(matches: &ArgMatches<'_>) -> Shape {
        Shape {
            region_log: matches.get_one("region-log"),
            allowance: matches.get_one("allowance"),
        }
    }
}
