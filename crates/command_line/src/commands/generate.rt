//! The command `generate`: its arguments, their help, and how they are parsed.
ghost use Rattle.std.specs.Prelude.{codes, IfSome, ◌∷◌, []};
ghost use Rattle.command_line.specs.CommandLine.{IsCallOf};
ghost use Rattle.command_line.specs.Request.{IsFor};

use crate::arguments::{ATOMIC, NEW_ALLOWANCE, NEW_IMAGE, PROGRESS, REGION_LOG, VERBOSE};
use crate::definition::{Argument, Definition, Valued, Values};
use crate::request::Request;
use clap::ArgMatches;

/// The percentage of references without `--refs`.
const USUAL_REFERENCES: u32 = 25;

const EXAMPLE: &str = "\
Example:
  pcompact generate heap.pcheap --words 65536 --live 50 --region-log 9 --seed 1";

/// The definition of `generate`.
pub const DEFINITION: Definition = Definition {
    name: "generate",
    about: "Generate a heap image from a seed, for benchmarks and experiments",
    example: EXAMPLE,
    arguments: &[
        NEW_IMAGE,
        WORDS,
        LIVE,
        Argument::Valued(Valued {
            is_required: true,
            help: "Regions have 2^k words, k from 3 to 20",
            ..REGION_LOG
        }),
        SEED,
        REFERENCES,
        VERSION,
        NEW_ALLOWANCE,
        PROGRESS,
        ATOMIC,
        VERBOSE,
    ],
};

/// The option `--words`, the size of the heap in words.
const WORDS: Argument = Argument::Valued(Valued {
    name: "words",
    value: "n",
    values: Values::LargeNumbers(1, 68_719_476_736),
    is_required: true,
    help: "Words of the heap, a multiple of 2^k, at most 2^36",
});

/// The option `--live`, the percentage of live words.
const LIVE: Argument = Argument::Valued(Valued {
    name: "live",
    value: "share",
    values: Values::Numbers(0, 100),
    is_required: true,
    help: "Percentage of words in live objects, 0 to 100",
});

/// The option `--seed`.
const SEED: Argument = Argument::Valued(Valued {
    name: "seed",
    value: "s",
    values: Values::LargeNumbers(0, u64::MAX),
    is_required: true,
    help: "A number of 64 bits; the same seed gives the same bytes",
});

/// The option `--refs`, the percentage of references.
const REFERENCES: Argument = Argument::Valued(Valued {
    name: "refs",
    value: "share",
    values: Values::Numbers(0, 100),
    is_required: false,
    help: "Percentage of references after headers (default 25)",
});

/// The option `--version`, the version of the image.
const VERSION: Argument = Argument::Valued(Valued {
    name: "version",
    value: "v",
    values: Values::Numbers(1, 3),
    is_required: false,
    help: "Image version, from 1 to 3 (default 2, larger heaps 3)",
});

/// The arguments of `generate`.
#[derive(Drop)]
pub struct Generate<'a> {
    /// The file for the image.
    pub image: &'a str,
    /// The size of the heap in words.
    pub words: u64,
    /// The percentage of the words that belongs to live objects.
    pub live: u32,
    /// The binary logarithm of the region size in words.
    pub region_log: u32,
    /// The seed of the random numbers.
    pub seed: u64,
    /// The percentage of the words after the headers that are references.
    pub references: u32,
    /// The version of the image, if it is on the line.
    pub version: Option<u32>,
    /// The number of dead words that the dense prefix may keep.
    pub allowance: u64,
    /// Whether files are replaced only once all is done.
    pub atomic: bool,
}

impl<'a> Generate<'a> {
    /// The request with these arguments.
    pub(crate) fn request(matches: &ArgMatches<'a>) -> Option<Request<'a>>
        ensures { IfSome result (IsFor (codes "generate")) }
    {
        let required = (
            matches.get_str("IMAGE"),
            matches.get_one("words"),
            matches.get_one("live"),
            matches.get_one("region-log"),
            matches.get_one("seed"),
        );
        let (Some(image), Some(words), Some(live), Some(region_log), Some(seed)) = required else {
            return None;
        };
        Some(Request::Generate(Generate {
            image,
            words,
            live,
            region_log,
            seed,
            references: matches.get_one("refs").unwrap_or(USUAL_REFERENCES),
            version: matches.get_one("version"),
            allowance: matches.get_one("allowance").unwrap_or(0),
            atomic: matches.get_flag("atomic"),
        }))
    }
}

/// Lines that call `generate`.
pub fn lines_call_generate()
    ensures line { IsCallOf (codes "generate") (codes "generate" ∷ codes "heap.pcheap" ∷ codes "--words" ∷ codes "4096" ∷ codes "--live" ∷ codes "50" ∷ codes "--region-log" ∷ codes "9" ∷ codes "--seed" ∷ codes "7" ∷ []) }
    ensures options { IsCallOf (codes "generate") (codes "generate" ∷ codes "heap.pcheap" ∷ codes "--words" ∷ codes "4096" ∷ codes "--live" ∷ codes "50" ∷ codes "--region-log" ∷ codes "9" ∷ codes "--seed" ∷ codes "7" ∷ codes "--refs" ∷ codes "40" ∷ codes "--version" ∷ codes "1" ∷ codes "--allowance" ∷ codes "64" ∷ codes "--atomic" ∷ codes "--verbose" ∷ []) }
{}
