//! Parses the line of an object, after its address and kind.
ghost use Rattle.std.specs.Prelude.{◌≡◌, ◌<◌, ◌≤◌, ◌+◌, ◌^◌, ◌++◌, ◌∷◌, [], ℕ, List, OnOk, length, flat_map};
ghost use Rattle.std.specs.List.{AllByRecursion};
ghost use Rattle.heap_text.specs.Text.{number_text, reference_text};
ghost use Rattle.object_heap.specs.Header.{object_header};
ghost use Rattle.heap_text.specs.Words.{Accepts, HasParsed, all_equal, HasPushed, references_part, data_part, has_some};

use super::line_error::LineError;
use super::tokens::{Tokens, parse_reference};
use crate::expected::Expected;
use crate::parsed_heap::ParsedHeap;
use crate::word_list::WordList;
use std::alloc::AllocError;

/// The most words of an object, which its header counts with 32 bits.
const MAX_SIZE: u64 = 0xffff_ffff;

/// The most references of an object, which its header counts with 24 bits.
const MAX_REFERENCES: u64 = 0xff_ffff;

impl ParsedHeap {
    /// Pushes the words of the next object, in a heap of `len` words.
    pub(crate) fn parse_object(&mut self, len: u64, mut tokens: Tokens<'_>) -> Result<(), LineError>
        requires left { self.old.words.len < len }
        requires few { len ≤ 68719476736 }
        ensures accepts { (refs others : List ℕ) → AllByRecursion (λ w. w ≤ len) refs → AllByRecursion (λ w. w < 2 ^ 64) others
            → tokens.entry.rest.now ≡ number_text (1 + (length refs + length others)) ++ (references_part refs ++ data_part others)
            → self.old.words.len + (1 + (length refs + length others)) ≤ len
            → 1 + (length refs + length others) < 2 ^ 32 → length refs < 2 ^ 24
            → Accepts result (λ _. HasParsed self.old self.new
            (object_header (1 + (length refs + length others)) (length refs) ∷ (refs ++ others)) (self.old.words.len ∷ [])) }
    {
        let place = self.words.len();
        let most = (len - place).min(MAX_SIZE);
        let Some(size) = tokens.next_count(most) else {
            return Err(LineError::Expected(Expected::Size(most)));
        };
        let references = tokens.count_references().min(size);
        if references > MAX_REFERENCES {
            return Err(LineError::Expected(Expected::FewReferences(MAX_REFERENCES)));
        }
        self.live.push(place)?;
        self.words.push((1 << 56) + (references << 32) + size)?;
        self.words.parse_fields(len, tokens)?;
        if self.words.len() != place + size {
            return Err(LineError::Expected(Expected::FieldCount(size - 1)));
        }
        Ok(())
    }
}

impl WordList {
    /// Parses `refs` and references, then `data` and numbers.
    fn parse_fields(&mut self, len: u64, mut tokens: Tokens<'_>) -> Result<(), LineError>
        requires few { len ≤ 68719476736 }
        ensures accepts { (refs others : List ℕ) → AllByRecursion (λ w. w ≤ len) refs → AllByRecursion (λ w. w < 2 ^ 64) others
            → tokens.entry.rest.now ≡ references_part refs ++ data_part others → self.old.len + (length refs + length others) ≤ len
            → Accepts result (λ _. HasPushed self.old self.new (refs ++ others)) }
    {
        let Some(name) = tokens.next_token() else {
            return Ok(());
        };
        if name == b"refs".as_slice() {
            return self.parse_references_and_data(len, tokens);
        }
        if name == b"data".as_slice() {
            return self.parse_data(len, tokens);
        }
        Err(LineError::Expected(Expected::Fields))
    }

    /// Parses references, then `data` and numbers if they come.
    fn parse_references_and_data(
        &mut self,
        len: u64,
        mut tokens: Tokens<'_>,
    ) -> Result<(), LineError>
        requires few { len ≤ 68719476736 }
        ensures accepts { (refs others : List ℕ) → AllByRecursion (λ w. w ≤ len) refs → AllByRecursion (λ w. w < 2 ^ 64) others
            → 0 < length refs → tokens.entry.rest.now ≡ flat_map reference_text refs ++ data_part others
            → self.old.len + (length refs + length others) ≤ len
            → Accepts result (λ _. HasPushed self.old self.new (refs ++ others)) }
    {
        if self.parse_references(len, &mut tokens)? {
            self.parse_data(len, tokens)
        } else {
            Ok(())
        }
    }

    /// Parses one number or more, up to the end of the line.
    fn parse_data(&mut self, len: u64, tokens: Tokens<'_>) -> Result<(), LineError>
        requires few { len ≤ 68719476736 }
        ensures accepts { (ws : List ℕ) → AllByRecursion (λ w. w < 2 ^ 64) ws → 0 < length ws
            → tokens.entry.rest.now ≡ flat_map number_text ws → self.old.len + length ws ≤ len
            → Accepts result (λ _. HasPushed self.old self.new ws) }
    {
        match self.parse_numbers(len, tokens) {
            Ok(_are_equal) => Ok(()),
            Err(error) => Err(error),
        }
    }

    /// Parses one reference or more, up to `data` or the end of the line. Returns whether `data` comes.
    fn parse_references(&mut self, len: u64, tokens: &mut Tokens<'_>) -> Result<bool, LineError>
        requires few { len ≤ 68719476736 }
        ensures accepts { (refs others : List ℕ) → AllByRecursion (λ w. w ≤ len) refs → 0 < length refs
            → tokens.old.rest.now ≡ flat_map reference_text refs ++ data_part others → self.old.len + length refs ≤ len
            → Accepts result (λ has_data. (has_data ≡ has_some others) × HasPushed self.old self.new refs
            × (tokens.new.rest.now ≡ flat_map number_text others)) }
    {
        let Some(first) = tokens.next_reference(len) else {
            return Err(LineError::Expected(Expected::Reference(len)));
        };
        self.push_word(len, first)?;
        while let Some(token) = tokens.next_token() {
            match parse_reference(token, len) {
                Some(reference) => self.push_word(len, reference)?,
                None if token == b"data".as_slice() => return Ok(true),
                None => return Err(LineError::Expected(Expected::Reference(len))),
            }
        }
        Ok(false)
    }

    /// Parses one number or more, up to the end of the line. Returns whether all are equal.
    pub(crate) fn parse_numbers(
        &mut self,
        len: u64,
        mut tokens: Tokens<'_>,
    ) -> Result<bool, LineError>
        requires few { len ≤ 68719476736 }
        ensures grown { OnOk result (self.old.len ≤ self.new.len) }
        ensures accepts { (ws : List ℕ) → AllByRecursion (λ w. w < 2 ^ 64) ws → 0 < length ws
            → tokens.entry.rest.now ≡ flat_map number_text ws → self.old.len + length ws ≤ len
            → Accepts result (λ equal. (equal ≡ all_equal ws) × HasPushed self.old self.new ws) }
    {
        let Some(first) = tokens.next_number() else {
            return Err(LineError::Expected(Expected::Number));
        };
        self.push_word(len, first)?;
        let mut are_equal = true;
        while !tokens.is_empty() {
            let Some(word) = tokens.next_number() else {
                return Err(LineError::Expected(Expected::Number));
            };
            are_equal &= word == first;
            self.push_word(len, word)?;
        }
        Ok(are_equal)
    }

    /// Pushes a word, but keeps at most one word more than the heap has. That one shows that the line is too long, and a
    /// line of any length takes no more memory.
    pub(crate) fn push_word(&mut self, len: u64, word: u64) -> Result<(), AllocError>
        requires { len ≤ 68719476736 }
        ensures grown { OnOk result (self.old.len ≤ self.new.len) }
        ensures pushed { self.old.len < len → OnOk result (HasPushed self.old self.new (word ∷ [])) }
    {
        if self.len() <= len {
            self.push(word)?;
        }
        Ok(())
    }
}
