//! Parses the line of a dead run, after its address and kind.
ghost use Rattle.std.specs.Prelude.{◌≡◌, ◌<◌, ◌≤◌, ◌+◌, ◌^◌, ◌++◌, ◌∷◌, [], ℕ, List, false, length, flat_map, replicate};
ghost use Rattle.std.specs.List.{AllByRecursion};
ghost use Rattle.heap_text.specs.Text.{number_text};
ghost use Rattle.heap_text.specs.Words.{Accepts, HasParsed, HasPushed, all_equal, dead_part};

use super::line_error::LineError;
use super::tokens::Tokens;
use crate::expected::Expected;
use crate::parsed_heap::ParsedHeap;
use crate::word_list::WordList;

impl ParsedHeap {
    /// Pushes the words of the next dead run, in a heap of `len` words.
    pub(crate) fn parse_dead(&mut self, len: u64, mut tokens: Tokens<'_>) -> Result<(), LineError>
        requires left { self.old.words.len < len }
        requires few { len ≤ 68719476736 }
        ensures accepts { (ws : List ℕ) → AllByRecursion (λ w. w < 2 ^ 64) ws → 0 < length ws
            → tokens.entry.rest.now ≡ number_text (length ws) ++ dead_part ws → self.old.words.len + length ws ≤ len
            → Accepts result (λ _. HasParsed self.old self.new ws []) }
    {
        let left = len - self.words.len();
        let Some(count) = tokens.next_count(left) else {
            return Err(LineError::Expected(Expected::Count(left)));
        };
        let Some(name) = tokens.next_token() else {
            return Err(LineError::Expected(Expected::Dead));
        };
        if name == b"of".as_slice() {
            self.words.parse_equal_words(len, count, tokens)?;
            return Ok(());
        }
        if name == b"words".as_slice() {
            self.words.parse_unequal_words(len, count, tokens)?;
            return Ok(());
        }
        Err(LineError::Expected(Expected::Dead))
    }
}

impl WordList {
    /// Parses one number and pushes it `count` times.
    fn parse_equal_words(
        &mut self,
        len: u64,
        count: u64,
        mut tokens: Tokens<'_>,
    ) -> Result<(), LineError>
        requires { len ≤ 68719476736 }
        ensures accepts { (w : ℕ) → w < 2 ^ 64 → tokens.entry.rest.now ≡ number_text w → self.old.len + count ≤ len
            → Accepts result (λ _. HasPushed self.old self.new (replicate count w)) }
    {
        let Some(word) = tokens.next_number() else {
            return Err(LineError::Expected(Expected::Number));
        };
        if tokens.next_token().is_some() {
            return Err(LineError::Expected(Expected::LineEnd));
        }
        for _i in 0..count {
            self.push_word(len, word)?;
        }
        Ok(())
    }

    /// Parses `count` numbers, and rejects them if all are equal.
    fn parse_unequal_words(
        &mut self,
        len: u64,
        count: u64,
        tokens: Tokens<'_>,
    ) -> Result<(), LineError>
        requires { len ≤ 68719476736 }
        ensures accepts { (ws : List ℕ) → AllByRecursion (λ w. w < 2 ^ 64) ws → 0 < length ws → all_equal ws ≡ false
            → tokens.entry.rest.now ≡ flat_map number_text ws → count ≡ length ws → self.old.len + length ws ≤ len
            → Accepts result (λ _. HasPushed self.old self.new ws) }
    {
        let start = self.len();
        let are_equal = self.parse_numbers(len, tokens)?;
        if self.len() - start != count {
            return Err(LineError::Expected(Expected::WordCount(count)));
        }
        if are_equal {
            return Err(LineError::Expected(Expected::Equal));
        }
        Ok(())
    }
}
