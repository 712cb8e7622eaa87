//! What is printed of a comparison.
ghost use Rattle.std.specs.Prelude.{◌≡◌, ◌++◌, ◌-◌, ◌/◌, ◌≤◌, OnOk, string_bytes, length, take};
ghost use Rattle.object_pairs.specs.Text.{comparison_text, conflicts_text, counts_text, left_columns, more_text, prefix_bytes, right_columns, row, rows_from, start_column, table_text, verdict_text};

use crate::comparison::{Comparison, Verdict};
use crate::figures::SpaceFigures;
use std::alloc::AllocError;

/// How many spaces are printed.
const MOST_SPACES: usize = 16;

/// The bytes of a region of HotSpot's parallel collector: 65,536 words.
const REGION_BYTES: u64 = 524_288;

/// The names of the columns.
const HEAD: &str =
    " space      paired      stayed    descents       holes      prefix       bytes     regions  start\n";

impl Comparison {
    /// Appends the report: the counts of objects, the conflicts, a row for each of the first 16 spaces, and the verdict.
    pub fn push_report(&self, text: &mut String) -> Result<(), AllocError>
        ensures { OnOk result (string_bytes text.new ≡ string_bytes text.old ++ comparison_text self.now) }
    {
        self.push_counts(text)?;
        self.push_conflicts(text)?;
        push_table(&self.spaces, text)?;
        push_verdict(self.verdict(), text)?;
        Ok(())
    }

    /// Appends the line with the counts of objects.
    fn push_counts(&self, text: &mut String) -> Result<(), AllocError>
        ensures { OnOk result (string_bytes text.new ≡ string_bytes text.old ++ counts_text self.now) }
    {
        let (before, after, paired, changed) = (self.before, self.after, self.paired, self.changed);
        writeln!(
            text,
            "objects before {before} after {after} paired {paired} changed {changed}"
        )
    }

    /// Appends the line with the references in conflict.
    fn push_conflicts(&self, text: &mut String) -> Result<(), AllocError>
        ensures { OnOk result (string_bytes text.new ≡ string_bytes text.old ++ conflicts_text self.now) }
    {
        let (all, cleared, filled, elsewhere) = (
            self.conflicts(),
            self.cleared,
            self.filled,
            self.elsewhere,
        );
        writeln!(
            text,
            "conflicts {all} cleared {cleared} filled {filled} elsewhere {elsewhere}"
        )
    }
}

/// Appends the names of the columns, a row for each of the first 16 spaces, and how many more there are.
fn push_table(spaces: &[SpaceFigures], text: &mut String) -> Result<(), AllocError>
    ensures { OnOk result (string_bytes text.new ≡ string_bytes text.old ++ table_text spaces.now) }
{
    text.push_str(HEAD)?;
    push_rows(first_spaces(spaces), text)?;
    push_more(spaces.len().saturating_sub(MOST_SPACES), text)?;
    Ok(())
}

/// The first 16 of these spaces.
fn first_spaces(spaces: &[SpaceFigures]) -> &[SpaceFigures]
    ensures { result.now ≡ take 16 spaces.now }
{
    if spaces.len() <= MOST_SPACES {
        spaces
    } else {
        &spaces[..MOST_SPACES]
    }
}

/// Appends a row for each of these spaces.
fn push_rows(spaces: &[SpaceFigures], text: &mut String) -> Result<(), AllocError>
    ensures { OnOk result (string_bytes text.new ≡ string_bytes text.old ++ rows_from 1 spaces.now) }
{
    for (index, space) in spaces.iter().enumerate() {
        push_row(index + 1, space, text)?;
    }
    Ok(())
}

/// Appends the row of a space.
fn push_row(number: usize, space: &SpaceFigures, text: &mut String) -> Result<(), AllocError>
    ensures { OnOk result (string_bytes text.new ≡ string_bytes text.old ++ row number space.now) }
{
    push_counts_of(number, space, text)?;
    push_prefix_of(space, prefix_bytes(space), text)?;
    push_start(space.start, text)?;
    Ok(())
}

/// Appends the number of a space, and its counts up to the descents.
fn push_counts_of(number: usize, space: &SpaceFigures, text: &mut String) -> Result<(), AllocError>
    ensures { OnOk result (string_bytes text.new ≡ string_bytes text.old ++ left_columns number space.now) }
{
    let (paired, stayed, descents) = (space.paired, space.stayed, space.descents);
    write!(text, "{number:>6} {paired:>11} {stayed:>11} {descents:>11}")
}

/// Appends the holes of a space, and its prefix, which has this many bytes.
fn push_prefix_of(space: &SpaceFigures, bytes: u64, text: &mut String) -> Result<(), AllocError>
    ensures { OnOk result (string_bytes text.new ≡ string_bytes text.old ++ right_columns space.now bytes) }
{
    let (holes, prefix, regions) = (space.holes, space.prefix, bytes / REGION_BYTES);
    write!(text, " {holes:>11} {prefix:>11} {bytes:>11} {regions:>11}")
}

/// Appends where a space begins, and ends its row.
fn push_start(start: u64, text: &mut String) -> Result<(), AllocError>
    ensures { OnOk result (string_bytes text.new ≡ string_bytes text.old ++ start_column start) }
{
    writeln!(text, "  @{start:x}")
}

/// The bytes of the prefix of a space.
fn prefix_bytes(space: &SpaceFigures) -> u64
    ensures { result ≡ prefix_bytes space.now }
{
    space.prefix_end.saturating_sub(space.start)
}

/// Appends how many spaces have no row, if there are some.
fn push_more(count: usize, text: &mut String) -> Result<(), AllocError>
    ensures { OnOk result (string_bytes text.new ≡ string_bytes text.old ++ more_text count) }
{
    if count == 0 {
        return Ok(());
    }
    writeln!(text, "and {count} more")
}

/// Appends the line of a verdict.
fn push_verdict(verdict: Verdict, text: &mut String) -> Result<(), AllocError>
    ensures { OnOk result (string_bytes text.new ≡ string_bytes text.old ++ verdict_text verdict) }
{
    text.push_str(match verdict {
        Verdict::Slid => "slid: each space keeps its order and its distances\n",
        Verdict::Broken => "broken: a space has descents or holes\n",
        Verdict::Incomparable => {
            "not comparable: less than half of AFTER is paired, or more than 1 per cent is in conflict\n"
        }
    })
}
