//! The arguments that several commands share.
use crate::definition::{Argument, Valued, Values};

/// The image that a command reads.
pub const IMAGE: Argument = Argument::File("IMAGE", "A heap image; - is standard input");

/// The file for an image.
pub const NEW_IMAGE: Argument = Argument::File(
    "IMAGE",
    "Where to write the image; - is standard output",
);

/// The file for a compacted image.
pub const OUT: Argument = Argument::File(
    "OUT",
    "Where to write the compacted image; - is standard output",
);

/// The schedule that a command reads.
pub const SCHEDULE: Argument = Argument::File(
    "SCHEDULE",
    "A schedule for the image; - is standard input",
);

/// The option `--workers`.
pub const WORKERS: Argument = Argument::ShortValued(
    'w',
    Valued {
        name: "workers",
        value: "n",
        values: Values::Numbers(1, 64),
        is_required: false,
        help: "Worker threads, from 1 to 64 (default: the processors)",
    },
);

/// The option `--region-log`, the binary logarithm of the region size in words, for how the file IMAGE is read.
pub const REGION_LOG: Valued = Valued {
    name: "region-log",
    value: "k",
    values: Values::Numbers(3, 20),
    is_required: false,
    help: "Read IMAGE with regions of 2^k words, k from 3 to 20",
};

/// The option `--allowance`, the number of dead words that the dense prefix may keep, for how the file IMAGE is read.
pub const ALLOWANCE: Valued = Valued {
    name: "allowance",
    value: "m",
    values: Values::LargeNumbers(0, u64::MAX),
    is_required: false,
    help: "Read IMAGE as if its prefix might keep m dead words",
};

/// The option `--allowance` of a command that makes an image.
pub const NEW_ALLOWANCE: Argument = Argument::Valued(Valued {
    help: "Dead words that the dense prefix may keep (default 0)",
    ..ALLOWANCE
});

/// The option `--width`, the number of cells of a row.
pub const WIDTH: Valued = Valued {
    name: "width",
    value: "n",
    values: Values::Numbers(1, 1000),
    is_required: false,
    help: "Cells of a row, 1 to 1000 (default: what fits, or 64)",
};

/// The option `--svg`, the file for a drawing.
pub const SVG: Valued = Valued {
    name: "svg",
    value: "FILE",
    values: Values::Texts,
    is_required: false,
    help: "Draw into this file as SVG, and print only the figures",
};

/// The option `--letters`.
pub const LETTERS: Argument = Argument::Flag(
    "letters",
    "Draw with letters even if the locale has blocks",
);

/// The option `--color`.
pub const COLOR: Argument = Argument::Flag(
    "color",
    "Use colours (or --color=WHEN: auto, always, never)",
);

/// The option `--no-color`.
pub const NO_COLOR: Argument = Argument::Flag("no-color", "Never use colours");

/// The option `--atomic`.
pub const ATOMIC: Argument = Argument::Flag(
    "atomic",
    "Replace files only once the command has succeeded",
);

/// The option `--json`.
pub const JSON: Argument = Argument::Flag("json", "Print a JSON object");

/// The option `--stats`.
pub const STATS: Argument = Argument::Flag("stats", "Print timings and peak memory to stderr");

/// The option `--progress`.
pub const PROGRESS: Argument = Argument::Flag(
    "progress",
    "Show progress (or --progress=WHEN: auto, always, never)",
);

/// The option `--verbose`.
pub const VERBOSE: Argument = Argument::ShortFlag(
    'v',
    "verbose",
    "Print details of errors (default; --verbose=never: none)",
);
