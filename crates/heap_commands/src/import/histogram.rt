//! The histogram of the classes of an imported image.
ghost use Rattle.std.specs.Prelude.{◌≡◌, ◌++◌, ℕ, List, OnOk, codes, string_bytes};
ghost use Rattle.heap_dump.specs.ImportFigures.{AreFiguresOf};
ghost use Rattle.heap_dump.specs.Listing.{AreObjectsOf};
ghost use Rattle.heap_commands.specs.Histogram.{IsHistogram, bytes_of, classes_text, columns, dead_text, followed_text, notes_text, part, row, rows_from, sums_text};

use heap_dump::{
    ClassNames, ClassTotals, DeadWords, Followed, ImportFigures, ListedImport, Totals,
};
use std::alloc::{AllocError, Global};

/// Whose bytes the columns have.
const BYTES_NOTE: &str =
    "live and dead bytes are those in the image, machine bytes those in the Java machine, as jmap -histo has them\n";

/// The names of the columns.
const HEAD: &str =
    " num  live objects    live bytes  dead objects    dead bytes machine bytes  class\n";

/// Appends the `most` classes with the most bytes, the total of all classes, what the dead words are, and what the
/// figures of an import mean. Bytes are those in the image, but for the last column, which has those in the machine.
pub(crate) fn push_histogram(
    alloc: Global,
    import: &ListedImport,
    most: u32,
    text: &mut String,
) -> Result<(), AllocError>
    requires objects { AreObjectsOf import.now.imported.image import.now.objects.items }
    requires figures { AreFiguresOf import.now.imported.image import.now.imported.figures }
    ensures { OnOk result ((shown : List ℕ) × IsHistogram import.now.imported.image import.now.imported.figures most shown
        × (string_bytes text.new ≡ string_bytes text.old ++ shown)) }
{
    let mut classes = import.ranking(alloc)?;
    classes.truncate(most as usize);
    push_classes(classes.as_slice(), &import.names, text)?;
    let (totals, dead) = (import.totals(), import.dead_words());
    push_sums(&totals, &dead, import.imported.figures, text)?;
    Ok(())
}

/// Appends the names of the columns, and a row for each of these classes.
fn push_classes(
    classes: &[ClassTotals],
    names: &ClassNames,
    text: &mut String,
) -> Result<(), AllocError>
    ensures { OnOk result (string_bytes text.new ≡ string_bytes text.old ++ classes_text names.now classes.now) }
{
    text.push_str(HEAD)?;
    push_rows(classes, names, text)?;
    Ok(())
}

/// Appends a row for each of these classes.
fn push_rows(
    classes: &[ClassTotals],
    names: &ClassNames,
    text: &mut String,
) -> Result<(), AllocError>
    ensures { OnOk result (string_bytes text.new ≡ string_bytes text.old ++ rows_from names.now 1 classes.now) }
{
    for (index, class) in classes.iter().enumerate() {
        push_row(index + 1, class, names, text)?;
    }
    Ok(())
}

/// Appends the row of a class.
fn push_row(
    number: usize,
    class: &ClassTotals,
    names: &ClassNames,
    text: &mut String,
) -> Result<(), AllocError>
    ensures { OnOk result (string_bytes text.new ≡ string_bytes text.old ++ row names.now number class.now) }
{
    write!(text, "{number:>4}:")?;
    push_columns(&class.totals, text)?;
    text.push_str("  ")?;
    names.push_name(class.class, text)?;
    text.push_str("\n")?;
    Ok(())
}

/// Appends the sums of all objects, the dead words, and the notes.
fn push_sums(
    totals: &Totals,
    dead: &DeadWords,
    figures: ImportFigures,
    text: &mut String,
) -> Result<(), AllocError>
    ensures { OnOk result (string_bytes text.new ≡ string_bytes text.old ++ sums_text totals.now dead.now figures) }
{
    text.push_str("total")?;
    push_columns(totals, text)?;
    text.push_str("\n")?;
    push_dead(dead, text)?;
    push_notes(figures, text)?;
    Ok(())
}

/// Appends the columns of a row.
fn push_columns(totals: &Totals, text: &mut String) -> Result<(), AllocError>
    ensures { OnOk result (string_bytes text.new ≡ string_bytes text.old ++ columns totals.now) }
{
    let (live, dead) = (totals.live_objects, totals.dead_objects);
    let (live_bytes, dead_bytes) = (bytes_of(totals.live_words), bytes_of(totals.dead_words));
    let machine_bytes = bytes_of(totals.machine_words);
    write!(
        text,
        " {live:>13} {live_bytes:>13} {dead:>13} {dead_bytes:>13} {machine_bytes:>13}"
    )
}

/// Appends what the words are that belong to no live object.
fn push_dead(dead: &DeadWords, text: &mut String) -> Result<(), AllocError>
    ensures { OnOk result (string_bytes text.new ≡ string_bytes text.old ++ dead_text dead.now) }
{
    let all = bytes_of(dead.words());
    writeln!(text, "dead bytes {all}")?;
    push_part(dead.objects, "objects that no root reaches", text)?;
    let padding = "padding: the machine's larger headers and alignment";
    push_part(dead.padding, padding, text)?;
    let gaps = "wider gaps: free space, or objects that the dump leaves out";
    push_part(dead.gaps, gaps, text)?;
    push_part(dead.end, "after the last object", text)?;
    Ok(())
}

/// Appends the line of a part of the dead words.
fn push_part(words: u64, meaning: &str, text: &mut String) -> Result<(), AllocError>
    ensures { OnOk result (string_bytes text.new ≡ string_bytes text.old ++ part words meaning.now) }
{
    let bytes = bytes_of(words);
    writeln!(text, "  {bytes:>13} {meaning}")
}

/// Appends what two figures of an import mean, which objects count as live, and whose bytes the columns have.
fn push_notes(figures: ImportFigures, text: &mut String) -> Result<(), AllocError>
    ensures { OnOk result (string_bytes text.new ≡ string_bytes text.old ++ notes_text figures) }
{
    let (gaps, unresolved) = (figures.dropped_gaps, figures.unresolved);
    writeln!(
        text,
        "dropped-gaps {gaps}: gaps of more than 512 words, which the image leaves out"
    )?;
    writeln!(
        text,
        "unresolved {unresolved}: references and roots to objects that are not in the dump; they are null in the image"
    )?;
    push_followed(figures.followed, text)?;
    text.push_str(BYTES_NOTE)?;
    Ok(())
}

/// Appends what counts as live, where these references are followed.
fn push_followed(followed: Followed, text: &mut String) -> Result<(), AllocError>
    ensures { OnOk result (string_bytes text.new ≡ string_bytes text.old ++ followed_text followed) }
{
    match followed {
        Followed::All => text.push_str(
            "live counts what only weak, soft, phantom or final references lead to, which --weak leaves out\n",
        ),
        Followed::StrongAndSoft => text.push_str(
            "live doesn't count what only weak, phantom or final references lead to\n",
        ),
        Followed::Strong => text.push_str(
            "live doesn't count what only weak, soft, phantom or final references lead to\n",
        ),
    }
}

/// `words` in bytes, saturating.
pub(crate) fn bytes_of(words: u64) -> u64
    ensures { result ≡ bytes_of words }
{
    words.saturating_mul(8)
}
