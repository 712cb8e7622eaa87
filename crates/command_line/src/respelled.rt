//! The options `--verbose`, `--color` and `--progress` with a value. Commands that `clap` compares exactly with their definitions have no option
//! whose value may be left out, so such lines are parsed a second time, with the plain options.
ghost use Rattle.std.specs.Prelude.{◌≡◌, ◌∷◌, [], codes, ℕ, Bool, false, List, map, filter, string_bytes, is_some, IsTrue, IfOk, IfSome};
ghost use Rattle.command_line.specs.CommandLine.{IsPlainCallOf};
ghost use Rattle.command_line.specs.Respelling.{has_value, is_on, mentions, other_texts, plain_by, plain_line, plain_words};

use std::alloc::{AllocError, Global};

/// When something is done: details of an error are printed, colours are used, or progress is shown.
#[derive(Clone, Copy, PartialEq, Eq)]
pub enum When {
    /// As without the option.
    Auto,
    Always,
    Never,
}

impl When {
    /// What this word says, if it is the option with a value.
    fn of_word(word: &str, option: &str) -> Option<When>
        ensures { is_some result ≡ has_value option.now word.now }
    {
        match word.strip_prefix(option)? {
            "=auto" => Some(When::Auto),
            "=always" => Some(When::Always),
            "=never" => Some(When::Never),
            _ => None,
        }
    }

    /// Whether it is done, where this says whether it is without the option.
    pub fn is_now(self, by_default: bool) -> bool {
        match self {
            When::Auto => by_default,
            When::Always => true,
            When::Never => false,
        }
    }
}

/// A line with plain options in place of those with a value.
#[derive(Drop)]
pub struct Respelled {
    /// The words of the line.
    pub words: Vec<String>,
    /// What the line says by `--verbose`.
    pub verbose: When,
    /// What the line says by `--color`.
    pub color: When,
}

/// Spells each `--verbose`, `--color` and `--progress` with a value as the plain option, or returns `None` if there is none. All
/// other words stay.
pub fn respell(alloc: Global, words: &[String]) -> Result<Option<Respelled>, AllocError>
    ensures plain { IfOk result (λ found. IfSome found (λ line.
        map string_bytes line.words.items ≡ plain_line (map string_bytes words.now))) }
    ensures others { IfOk result (λ found. IfSome found (λ line. other_texts line.words.items ≡ other_texts words.now)) }
{
    let verbose = Mentions::of("--verbose", words);
    let color = Mentions::of("--color", words);
    let progress = Mentions::of("--progress", words);
    if verbose.last.is_none() && color.last.is_none() && progress.last.is_none() {
        return Ok(None);
    }
    let first = spell_plainly(alloc, "--verbose", words)?;
    let second = spell_plainly(alloc, "--color", first.as_slice())?;
    Ok(Some(Respelled {
        words: spell_plainly(alloc, "--progress", second.as_slice())?,
        verbose: verbose.when(),
        color: color.when(),
    }))
}

/// The words with this option plain in place of its values.
fn spell_plainly(
    alloc: Global,
    option: &'static str,
    words: &[String],
) -> Result<Vec<String>, AllocError>
    ensures plain { IfOk result (λ line.
        map string_bytes line.items ≡ plain_by option.now (map string_bytes words.now)) }
    ensures others { IfOk result (λ line. (picks : List ℕ → Bool)
        → ((word : List ℕ) → IsTrue (mentions option.now word) → picks word ≡ false)
        → filter picks (map string_bytes line.items) ≡ filter picks (map string_bytes words.now)) }
{
    Mentions::of(option, words).spell(alloc, words)
}

/// When progress is shown, by the words of a line.
pub fn progress_in(words: &[String]) -> When {
    Mentions::of("--progress", words).when()
}

/// How a line mentions an option. After the word `--` there are no options.
#[derive(Clone, Copy)]
struct Mentions {
    /// The plain option.
    option: &'static str,
    /// Whether it is on the line.
    is_plain: bool,
    /// The last value.
    last: Option<When>,
}

impl Mentions {
    fn of(option: &'static str, words: &[String]) -> Mentions
        ensures option { result.option ≡ option.entry }
        ensures plain { result.is_plain ≡ is_on option.now (map string_bytes words.now) }
    {
        let mut is_plain = false;
        let mut last = None;
        for word in words {
            let word = word.as_str();
            if word == "--" {
                break;
            }
            is_plain = is_plain || word == option;
            last = When::of_word(word, option).or(last);
        }
        Mentions {
            option,
            is_plain,
            last,
        }
    }

    /// What the line says: the last value decides, but `auto` changes nothing beside the plain option.
    fn when(self) -> When {
        match self.last {
            Some(When::Always) => When::Always,
            Some(When::Never) => When::Never,
            _ if self.is_plain => When::Always,
            _ => When::Auto,
        }
    }

    /// The line without values: with the plain option in place of the first, unless it is on the line already.
    fn spell(self, alloc: Global, words: &[String]) -> Result<Vec<String>, AllocError>
        ensures plain { IfOk result (λ line.
            map string_bytes line.items ≡ plain_words self.option.now self.is_plain (map string_bytes words.now)) }
        ensures others { IfOk result (λ line. (picks : List ℕ → Bool)
            → ((word : List ℕ) → IsTrue (mentions self.option.now word) → picks word ≡ false)
            → filter picks (map string_bytes line.items) ≡ filter picks (map string_bytes words.now)) }
    {
        let mut spelled = Vec::new(alloc);
        let mut are_options = true;
        let mut is_there = self.is_plain;
        for word in words {
            let word = word.as_str();
            are_options = are_options && word != "--";
            match When::of_word(word, self.option) {
                Some(_) if are_options => {
                    if !is_there {
                        spelled.push(String::from_str(alloc, self.option)?)?;
                        is_there = true;
                    }
                }
                _ => spelled.push(String::from_str(alloc, word)?)?,
            }
        }
        Ok(spelled)
    }
}

/// Lines that are refused, and that call a command with plain options.
pub fn lines_call_plainly()
    ensures order { IsPlainCallOf (codes "order") (codes "order" ∷ codes "heap.pcheap" ∷ codes "--json" ∷ codes "--verbose=always" ∷ []) }
    ensures import { IsPlainCallOf (codes "import") (codes "import" ∷ codes "--progress=never" ∷ codes "heap.hprof" ∷ codes "heap.pcheap" ∷ codes "--histogram" ∷ codes "3" ∷ []) }
{}
