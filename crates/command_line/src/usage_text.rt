//! The texts of help and of usage errors: those of `clap`, with usage in two lines where one is too long, with what is wanted in place
//! of how a number or a value is refused, and without tips that don't fit.
use std::alloc::{AllocError, Global};

/// How `clap` refuses what isn't a whole number, at the end of a line.
const NO_NUMBER: &str = "invalid digit found in string";

/// How `clap` refuses another value of an option than those that are spelled anew, at the end of a line.
const NO_VALUE: &str = "' found; no more were expected";

/// What stands in its place.
const WANTED_VALUE: &str = "' found; auto, always or never is wanted";

/// The first line about the word `version`, which is like `verify` to `clap`.
const NO_VERSION: &str = "error: unrecognized subcommand 'version'\n";

/// The most columns of a line of help.
const COLUMNS: usize = 80;

/// What a usage goes on behind where a line is full.
const INDENT: &str = "       ";

/// The text of help, of the one that `clap` makes.
pub fn help_text(alloc: Global, text: &str) -> Result<String, AllocError> {
    let mut folded = String::new(alloc);
    for line in text.lines() {
        if line.len() > COLUMNS && line.starts_with("Usage: ") {
            push_folded(line, &mut folded)?;
        } else {
            folded.push_str(line)?;
            folded.push_str("\n")?;
        }
    }
    Ok(folded)
}

/// Appends the words of a line, and begins another before one that doesn't fit.
fn push_folded(line: &str, folded: &mut String) -> Result<(), AllocError> {
    let mut columns = 0;
    for word in line.split(' ') {
        let wanted = word.len().saturating_add(1).saturating_add(columns);
        if columns > 0 && wanted > COLUMNS {
            folded.push_str("\n")?;
            folded.push_str(INDENT)?;
            columns = INDENT.len();
        } else if columns > 0 {
            folded.push_str(" ")?;
            columns += 1;
        }
        folded.push_str(word)?;
        columns = columns.saturating_add(word.len());
    }
    folded.push_str("\n")
}

/// The text of a usage error, of the one that `clap` makes.
pub fn usage_text(alloc: Global, text: &str) -> Result<String, AllocError> {
    let mut mended = String::new(alloc);
    let wants_version = text.starts_with(NO_VERSION);
    let mut was_dropped = false;
    for line in text.lines() {
        if wants_version && line.starts_with("  tip: ") {
            mended.push_str("  tip: a similar argument exists: '--version'\n")?;
        } else if !is_wrong_tip(line) && !(was_dropped && line.is_empty()) {
            push_line(line, &mut mended)?;
        }
        was_dropped = is_wrong_tip(line);
    }
    Ok(mended)
}

/// Whether a line is the tip to pass an option or a negative number after `--`. No file is meant by such a word.
fn is_wrong_tip(line: &str) -> bool {
    match line.strip_prefix("  tip: to pass '-") {
        Some(rest) => rest.starts_with('-')
            || rest.starts_with(|first: char| first.is_ascii_digit()),
        None => false,
    }
}

/// Appends a line. One that refuses a number or a value says what is wanted.
fn push_line(line: &str, mended: &mut String) -> Result<(), AllocError> {
    let (begin, end) = match (line.strip_suffix(NO_NUMBER), line.strip_suffix(NO_VALUE)) {
        (Some(refused), _) => (refused, wanted(refused)),
        (None, Some(refused)) if is_about_when(refused) => (refused, WANTED_VALUE),
        _ => (line, ""),
    };
    mended.push_str(begin)?;
    mended.push_str(end)?;
    mended.push_str("\n")
}

/// Whether this beginning of a line is about `--color` or `--progress`.
fn is_about_when(refused: &str) -> bool {
    refused.ends_with("--color") || refused.ends_with("--progress")
}

/// What the option wants that this beginning of a line is about.
fn wanted(refused: &str) -> &'static str {
    if refused.ends_with("'--words <n>': ") || refused.ends_with("'--allowance <m>': ") {
        "a whole number is wanted, of words of 8 bytes"
    } else if refused.ends_with("<share>': ") {
        "a whole number is wanted, of per cent"
    } else {
        "a whole number is wanted"
    }
}
