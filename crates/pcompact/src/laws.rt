//! What the contract of the program says of each command: laws that take its part out of the clause on what a
//! successful call prints.
ghost use Rattle.std.specs.Prelude.{◌≡◌, codes, ℕ, List};
ghost use Rattle.heap_commands.specs.Assemble.{IsCountLine};
ghost use Rattle.heap_commands.specs.Board.{IsBoard};
ghost use Rattle.heap_commands.specs.Compare.{IsCompared};
ghost use Rattle.heap_commands.specs.Generate.{IsGenerationLine};
ghost use Rattle.heap_commands.specs.Import.{IsImported};
ghost use Rattle.heap_commands.specs.Map.{IsMap};
ghost use Rattle.heap_commands.specs.Order.{IsOrder};
ghost use Rattle.heap_commands.specs.Reduce.{IsReductionLine};
ghost use Rattle.heap_commands.specs.Replay.{IsReplayText};
ghost use Rattle.heap_commands.specs.Summarize.{IsSummary};
ghost use Rattle.heap_commands.specs.Text.{AreLines};
ghost use Rattle.heap_commands.specs.Timeline.{IsTimeline};
ghost use Rattle.heap_commands.specs.Upgrade.{IsRootCount};
ghost use Rattle.collection_commands.specs.Figures.{IsFigures};
ghost use Rattle.pcompact.specs.Commands.{IsPrintedBy};

/// `board` prints the report of some legal history of two workers over the moves of the three regions, alone or after the lines of
/// its steps.
pub fn board_prints_its_report()
    ensures prints { (text : List ℕ) → IsPrintedBy (codes "board") text → IsBoard text }
{}

/// `summary` prints the summary of some valid image.
pub fn summary_prints_a_summary()
    ensures prints { (text : List ℕ) → IsPrintedBy (codes "summary") text → IsSummary text }
{}

/// `collect` prints the figures of the collection of some valid image.
pub fn collect_prints_figures()
    ensures prints { (text : List ℕ) → IsPrintedBy (codes "collect") text → IsFigures text }
{}

/// `verify` prints `same`.
pub fn verify_prints_same()
    ensures prints { (text : List ℕ) → IsPrintedBy (codes "verify") text → text ≡ codes "same\n" }
{}

/// `record` prints the figures of the collection of some valid image.
pub fn record_prints_figures()
    ensures prints { (text : List ℕ) → IsPrintedBy (codes "record") text → IsFigures text }
{}

/// `replay` prints the replay of some schedule on some valid image.
pub fn replay_prints_a_replay()
    ensures prints { (text : List ℕ) → IsPrintedBy (codes "replay") text → IsReplayText text }
{}

/// `upgrade` prints the number of roots of some valid image, upgraded.
pub fn upgrade_prints_a_root_count()
    ensures prints { (text : List ℕ) → IsPrintedBy (codes "upgrade") text → IsRootCount text }
{}

/// `import` prints the figures of some valid image with roots, alone or with the histogram of its classes.
pub fn import_prints_figures()
    ensures prints { (text : List ℕ) → IsPrintedBy (codes "import") text → IsImported text }
{}

/// `compare` prints the report of a comparison of some two graphs.
pub fn compare_prints_a_report()
    ensures prints { (text : List ℕ) → IsPrintedBy (codes "compare") text → IsCompared text }
{}

/// `generate` prints the figures of some valid image.
pub fn generate_prints_figures()
    ensures prints { (text : List ℕ) → IsPrintedBy (codes "generate") text → IsGenerationLine text }
{}

/// `reduce` prints the counts of some valid image.
pub fn reduce_prints_counts()
    ensures prints { (text : List ℕ) → IsPrintedBy (codes "reduce") text → IsReductionLine text }
{}

/// `order` prints the longest chain of some valid image, and what follows from it.
pub fn order_prints_a_chain()
    ensures prints { (text : List ℕ) → IsPrintedBy (codes "order") text → IsOrder text }
{}

/// `text` prints the lines of some valid image.
pub fn text_prints_lines()
    ensures prints { (text : List ℕ) → IsPrintedBy (codes "text") text → AreLines text }
{}

/// `assemble` prints what some valid image has.
pub fn assemble_prints_counts()
    ensures prints { (text : List ℕ) → IsPrintedBy (codes "assemble") text → IsCountLine text }
{}

/// `map` prints the picture of some valid image, or its figures.
pub fn map_prints_a_picture()
    ensures prints { (text : List ℕ) → IsPrintedBy (codes "map") text → IsMap text }
{}

/// `timeline` prints the lanes of some schedule on some valid image, or its figures.
pub fn timeline_prints_lanes()
    ensures prints { (text : List ℕ) → IsPrintedBy (codes "timeline") text → IsTimeline text }
{}
