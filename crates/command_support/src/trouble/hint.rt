//! What to do about a file that a command refuses.
ghost use Rattle.std.specs.Prelude.{◌≡◌};
ghost use Rattle.command_support.specs.Hints.{hint_of, hint_of_dump, hint_of_found, hint_of_words, is_dump, is_early_end};

use crate::files::content::Content;
use command_times::Tenths;
use dump_records::{ImportError, Problem};
use std::fmt;

/// What is known of a file that a command refuses.
#[derive(Clone, Copy)]
pub enum Hint {
    /// It has no byte.
    Empty,
    /// It is a dump whose end is missing.
    CutShort,
    /// It has the first of these, and the command reads the second.
    Has(Content, Content),
    /// It is a dump whose heap has too many words, and with `--live-only` not.
    LiveOnly {
        /// The number of words of the heap.
        words: u64,
        /// The most words that an image may have.
        most: u64,
        /// The number of words of the reachable objects.
        live_words: u64,
    },
    /// It is a dump whose reachable objects have too many words.
    TooLarge {
        /// The number of words of the reachable objects.
        live_words: u64,
        /// The most words that an image may have.
        most: u64,
    },
}

impl Hint {
    /// The hint about a file that begins with these bytes, where a command that reads `wanted` refuses it. A file that begins as
    /// what is wanted has none, nor has one that begins as nothing that is known.
    pub fn of(wanted: Content, front: &[u8]) -> Option<Hint>
        ensures { result ≡ hint_of wanted front.now }
    {
        if front.is_empty() {
            return Some(Hint::Empty);
        }
        Hint::of_found(wanted, Content::of(front))
    }

    /// The hint about a dump that begins with these bytes, of which `import` makes no image because of this error.
    pub fn of_dump(error: ImportError, front: &[u8]) -> Option<Hint>
        ensures { result ≡ hint_of_dump error front.now }
    {
        match error {
            ImportError::TooManyWords {
                words,
                most,
                live_words,
            } => Some(Hint::of_words(words, most, live_words)),
            ImportError::TooManyLiveWords { words, most } => Some(Hint::TooLarge {
                live_words: words,
                most,
            }),
            _ if is_early_end(error) && is_dump(Content::of(front)) => Some(Hint::CutShort),
            _ => Hint::of(Content::Dump, front),
        }
    }

    /// The hint about a dump whose heap has too many words.
    fn of_words(words: u64, most: u64, live_words: u64) -> Hint
        ensures { result ≡ hint_of_words words most live_words }
    {
        if live_words > most {
            Hint::TooLarge { live_words, most }
        } else {
            Hint::LiveOnly {
                words,
                most,
                live_words,
            }
        }
    }

    fn of_found(wanted: Content, found: Option<Content>) -> Option<Hint>
        ensures { result ≡ hint_of_found wanted found }
    {
        match (wanted, found) {
            (_, None)
            | (Content::Image, Some(Content::Image))
            | (Content::Dump, Some(Content::Dump))
            | (Content::Schedule, Some(Content::Schedule))
            | (Content::Text, Some(Content::Text))
            | (Content::Packed, Some(Content::Packed))
            | (Content::AndroidDump, Some(Content::AndroidDump))
            | (Content::Picture, Some(Content::Picture)) => None,
            (_, Some(found)) => Some(Hint::Has(found, wanted)),
        }
    }
}

impl fmt::Display for Hint {
    fn fmt<W: fmt::Write>(&self, f: &mut fmt::Formatter<W>) -> fmt::Result {
        match self {
            Hint::Empty => f.write_str("it is empty"),
            Hint::CutShort => f.write_str(
                "it is cut short, as by a full disk, or it is still being written",
            ),
            Hint::Has(found, wanted) => f.write_str(text_of(*found, *wanted)),
            Hint::LiveOnly {
                words,
                most,
                live_words,
            } => {
                let size = Tenths::mib_of_words(*words);
                let limit = Tenths::mib_of_words(*most);
                let live = Tenths::mib_of_words(*live_words);
                write!(
                    f,
                    "it has {size} MiB, {limit} MiB are the most, and with --live-only it has {live} MiB"
                )
            }
            Hint::TooLarge { live_words, most } => {
                let live = Tenths::mib_of_words(*live_words);
                let limit = Tenths::mib_of_words(*most);
                write!(
                    f,
                    "its live objects have {live} MiB, and {limit} MiB are the most"
                )
            }
        }
    }
}

/// Whether a dump ends too early.
fn is_early_end(error: ImportError) -> bool
    ensures { result ≡ is_early_end error }
{
    matches!(
        error,
        ImportError::Malformed {
            problem: Problem::Cut | Problem::NoHeap | Problem::NoEnd,
            ..
        }
    )
}

/// Whether a file with this content is a dump.
fn is_dump(content: Option<Content>) -> bool
    ensures { result ≡ is_dump content }
{
    matches!(content, Some(Content::Dump))
}

/// The hint about a file that has the first of these where the second is wanted.
fn text_of(found: Content, wanted: Content) -> &'static str {
    match (found, wanted) {
        (Content::AndroidDump, Content::Dump) => {
            "it is a heap dump of Android, hprof-conv of its tools makes one of version 1.0.2 of it"
        }
        (Content::AndroidDump, _) => "it is a heap dump of Android",
        (Content::Picture, _) => "it is a picture (PNG)",
        (Content::Packed, _) => "it is packed by gzip, gunzip unpacks it",
        (Content::Dump, Content::Image) =>
            "it is a heap dump, pcompact import makes an image of it",
        (Content::Dump, _) => "it is a heap dump",
        (Content::Text, Content::Image) => {
            "it is a heap text, pcompact assemble makes an image of it"
        }
        (Content::Text, _) => "it is a heap text",
        (Content::Image, Content::Text) => "it is a heap image, pcompact text makes a text of it",
        (Content::Image, _) => "it is a heap image",
        (Content::Schedule, _) => "it is a schedule",
    }
}
