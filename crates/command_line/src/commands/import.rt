//! The command `import`: its arguments, their help, and how they are parsed.
ghost use Rattle.std.specs.Prelude.{◌≢◌, codes, None, IfSome, ◌∷◌, []};
ghost use Rattle.command_line.specs.CommandLine.{HaveBeginning, IsCallOf};
ghost use Rattle.command_line.specs.Request.{IsFor, rows_in};

use crate::arguments::{
    ATOMIC, JSON, NEW_ALLOWANCE, NEW_IMAGE, PROGRESS, REGION_LOG, STATS, VERBOSE,
};
use crate::beginning::have_beginning;
use crate::definition::{Argument, Definition, Valued, Values};
use crate::request::Request;
use clap::ArgMatches;

const EXAMPLE: &str = "\
Example:
  jcmd PID GC.heap_dump -all /tmp/heap.hprof
  pcompact import /tmp/heap.hprof heap.pcheap
  gunzip -c heap.hprof.gz | pcompact import - heap.pcheap";

/// The definition of `import`.
pub const DEFINITION: Definition = Definition {
    name: "import",
    about: "Convert the heap dump of a Java virtual machine to a heap image",
    example: EXAMPLE,
    arguments: &[
        Argument::File("DUMP", "A heap dump; - is standard input"),
        NEW_IMAGE,
        Argument::Valued(Valued {
            help: "Regions have 2^k words, k from 3 to 20 (default 9)",
            ..REGION_LOG
        }),
        NEW_ALLOWANCE,
        VERSION,
        Argument::Flag(
            "live-only",
            "Keep only objects that are reachable from the roots",
        ),
        Argument::Flag("weak", "Don't follow weak, phantom and final references"),
        Argument::Flag("weak-soft", "Don't follow soft references either"),
        Argument::Flag("pack", "Leave out gaps that are the machine's padding"),
        CLASSES,
        HISTOGRAM,
        JSON,
        STATS,
        PROGRESS,
        ATOMIC,
        VERBOSE,
    ],
};

/// The option `--version`, the version of the image.
const VERSION: Argument = Argument::Valued(Valued {
    name: "version",
    value: "v",
    values: Values::Numbers(2, 3),
    is_required: false,
    help: "Image version, from 2 to 3 (default 2, larger heaps 3)",
});

/// The option `--classes`, the file for a list of objects.
const CLASSES: Argument = Argument::Valued(Valued {
    name: "classes",
    value: "FILE",
    values: Values::Texts,
    is_required: false,
    help: "List objects: address, id, class, bytes, live or dead",
});

/// The option `--histogram`, the number of classes to print.
const HISTOGRAM: Argument = Argument::Valued(Valued {
    name: "histogram",
    value: "n",
    values: Values::Numbers(1, 1_000_000),
    is_required: false,
    help: "Print the n classes with the most bytes, live and dead",
});

/// The arguments of `import`.
#[derive(Drop)]
pub struct Import<'a> {
    /// The file with the dump.
    pub dump: &'a str,
    /// The file for the image.
    pub image: &'a str,
    /// The binary logarithm of the region size in words, if it is on the line.
    pub region_log: Option<u32>,
    /// The number of dead words that the dense prefix may keep.
    pub allowance: u64,
    /// The version of the image, if it is on the line.
    pub version: Option<u32>,
    /// Whether only reachable objects are kept.
    pub live_only: bool,
    /// Whether weak, phantom and final references aren't followed.
    pub weak: bool,
    /// Whether soft references aren't followed either.
    pub weak_soft: bool,
    /// Whether gaps that are padding are left out.
    pub pack: bool,
    /// The file for a list of objects.
    pub classes: Option<&'a str>,
    /// How many classes are printed, if they are.
    pub histogram: Option<u32>,
    /// Whether to print a JSON object.
    pub json: bool,
    /// Whether to print timings and peak memory.
    pub stats: bool,
    /// Whether files are replaced only once all is done.
    pub atomic: bool,
}

impl<'a> Import<'a> {
    /// The request with these arguments.
    pub(crate) fn request(matches: &ArgMatches<'a>) -> Option<Request<'a>>
        ensures { IfSome result (IsFor (codes "import")) }
    {
        let required = (matches.get_str("DUMP"), matches.get_str("IMAGE"));
        let (Some(dump), Some(image)) = required else {
            return None;
        };
        Some(Request::Import(Import {
            dump,
            image,
            region_log: matches.get_one("region-log"),
            allowance: matches.get_one("allowance").unwrap_or(0),
            version: matches.get_one("version"),
            live_only: matches.get_flag("live-only"),
            weak: matches.get_flag("weak"),
            weak_soft: matches.get_flag("weak-soft"),
            pack: matches.get_flag("pack"),
            classes: matches.get_str("classes"),
            histogram: matches.get_one("histogram"),
            json: matches.get_flag("json"),
            stats: matches.get_flag("stats"),
            atomic: matches.get_flag("atomic"),
        }))
    }

    /// The call without a histogram, if none of these arguments begins with the name of that option.
    pub(crate) fn as_asked(self, words: &[String]) -> Import<'a>
        ensures { rows_in result ≢ None → HaveBeginning (codes "--histogram") words.now }
    {
        if have_beginning(words, "--histogram") {
            self
        } else {
            Import {
                histogram: None,
                ..self
            }
        }
    }
}

/// Lines that call `import`.
pub fn lines_call_import()
    ensures line { IsCallOf (codes "import") (codes "import" ∷ codes "heap.hprof" ∷ codes "heap.pcheap" ∷ []) }
    ensures lists { IsCallOf (codes "import") (codes "import" ∷ codes "heap.hprof" ∷ codes "heap.pcheap" ∷ codes "--classes" ∷ codes "objects" ∷ codes "--histogram" ∷ codes "20" ∷ codes "--stats" ∷ []) }
    ensures options { IsCallOf (codes "import") (codes "import" ∷ codes "heap.hprof" ∷ codes "heap.pcheap" ∷ codes "--region-log" ∷ codes "12" ∷ codes "--allowance" ∷ codes "64" ∷ codes "--version" ∷ codes "3" ∷ codes "--live-only" ∷ codes "--weak" ∷ codes "--weak-soft" ∷ codes "--pack" ∷ codes "--atomic" ∷ codes "--verbose" ∷ []) }
{}
