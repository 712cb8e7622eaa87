ghost use Rattle.std.specs.Prelude.{◌≡◌};
ghost use Rattle.heap_map.specs.MapFigures.{AreFiguresOf};

use std::fmt;
use summary::Survey;
use summary::laws::dense_prefix::dead_words_by_region;

/// The figures of a heap and its collection, which a map prints in its first line. Counts and addresses are in words.
#[derive(Debug, Clone, Copy, PartialEq, Eq)]
pub struct MapFigures {
    /// The size of the heap.
    pub words: u64,
    /// The words of live objects.
    pub live: u64,
    /// All other words.
    pub dead: u64,
    /// The end of the dense prefix.
    pub prefix_end: u64,
    /// The first free address after the collection.
    pub new_top: u64,
    /// The number of regions to fill.
    pub filled: u32,
}

impl MapFigures {
    /// Counts them from the marks and the plan of a survey. It allocates nothing.
    pub fn of(survey: &Survey) -> MapFigures
        ensures { AreFiguresOf survey.now result }
    {
        dead_words_by_region();
        let plan = survey.plan();
        let words = u64::from(plan.regions()) * plan.region_words();
        let live = survey.marks().live_words(0, words);
        MapFigures {
            words,
            live,
            dead: words - live,
            prefix_end: plan.prefix_end(),
            new_top: plan.new_top(),
            filled: plan.fill_regions(),
        }
    }
}

impl fmt::Display for MapFigures {
    ghost use Rattle.std.specs.Prelude.{Some};
    ghost use Rattle.heap_map.specs.MapFigures.{figures_text};

    ghost output = { λ figures. Some (figures_text figures) };

    fn fmt<W: fmt::Write>(&self, f: &mut fmt::Formatter<W>) -> fmt::Result {
        let MapFigures {
            words,
            live,
            dead,
            prefix_end,
            new_top,
            filled,
        } = *self;
        write!(f, "words {words} live {live} dead {dead}")?;
        write!(f, " prefix {prefix_end} top {new_top} filled {filled}")
    }
}
