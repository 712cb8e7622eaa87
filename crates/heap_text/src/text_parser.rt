//! Splits a text that arrives in pieces into lines, and parses them.
ghost use Rattle.std.specs.Prelude.{◌≡◌, ◌+◌, ◌-◌, ◌^◌, ◌<◌, ◌≤◌, ◌++◌, ◌∷◌, [], ℕ, List, IfErr, OnOk, Ok, true, length};
ghost use Rattle.object_heap.specs.HeapImage.{HeapImage, IsValid};
ghost use Rattle.heap_text.specs.Parsing.{AcceptsText, Expects, HasContents, IsWaiting};
ghost use Rattle.heap_text.specs.Text.{text_of};
ghost use Rattle.std.specs.List.{list_all};
ghost use Rattle.heap_text.specs.TextBytes.{is_text_byte};
ghost use Rattle.heap_text.specs.TextLines.{EndsInLine, IsOfLine, IsWithin, ended_lines};

use crate::error::TextError;
use crate::expected::Expected;
use crate::line_parser::LineParser;
use crate::line_parser::line_error::LineError;
use crate::parsed_heap::ParsedHeap;
use memchr::memchr;
use std::alloc::Global;

/// A line that is longer than this is rejected before its end is seen, if its last bytes are none of a text.
const LONG_LINE: usize = 1 << 20;

/// Parses each line of a text once its newline has arrived.
#[derive(Drop)]
pub(crate) struct TextParser {
    parser: LineParser,
    /// The number of the next line, counted from 1.
    line: u64,
    /// The place of its first byte.
    begin: usize,
}

impl TextParser {
    /// Before the first byte of a text.
    pub(crate) fn new(alloc: Global) -> TextParser
        ensures stands { EndsInLine [] 0 result.line result.begin }
        ensures waits { (image : HeapImage) (bytes more : List ℕ) → bytes ++ more ≡ text_of image
            → IsWaiting image result bytes 0 more }
    {
        TextParser {
            parser: LineParser::new(alloc),
            line: 1,
            begin: 0,
        }
    }

    /// Parses each line whose newline is at `seen` or later.
    pub(crate) fn parse_lines(&mut self, text: &[u8], seen: usize) -> Result<(), TextError>
        requires { EndsInLine text.now seen self.old.line self.old.begin }
        ensures stands { OnOk result (EndsInLine text.now (length text.now) self.new.line self.new.begin) }
        ensures line { IfErr result (λ error. IsWithin text.now error) }
        ensures accepts { (image : HeapImage) (more : List ℕ) → IsValid image → IsWaiting image self.old text.now seen more
            → AcceptsText result (λ _. IsWaiting image self.new text.now (length text.now) more) }
    {
        let mut place = seen;
        while let Some(ahead) = memchr(b'\n', &text[place..]) {
            let end = place + ahead;
            self.parse_line(&text[self.begin..end])?;
            place = end + 1;
            self.begin = place;
        }
        Ok(())
    }

    /// Parses the next line, without its newline.
    fn parse_line(&mut self, bytes: &[u8]) -> Result<(), TextError>
        requires { self.old.line < 2 ^ 64 - 1 }
        ensures line { OnOk result (self.new.line ≡ self.old.line + 1) }
        ensures begin { self.new.begin ≡ self.old.begin }
        ensures error { IfErr result (λ error. IsOfLine self.old.line error) }
        ensures accepts { (image : HeapImage) (rest : List ℕ) → IsValid image → Expects image self.old.parser (bytes.now ++ (10 ∷ rest))
            → ended_lines bytes.now ≡ 0 → AcceptsText result (λ _. Expects image self.new.parser rest) }
    {
        match self.parser.parse_line(bytes) {
            Ok(()) => {
                self.line += 1;
                Ok(())
            }
            Err(LineError::Memory) => Err(TextError::Memory),
            Err(LineError::Expected(expected)) => Err(TextError::Line(self.line, expected)),
        }
    }

    /// Rejects the unfinished line at the end of `text` if no newline can complete it: it is longer than any line, or it is
    /// long and a byte of it, at `seen` or later, is none of a text.
    pub(crate) fn check_unfinished_line(&self, text: &[u8], seen: usize) -> Result<(), TextError>
        requires stands { EndsInLine text.now (length text.now) self.now.line self.now.begin }
        requires seen { seen ≤ length text.now }
        ensures line { IfErr result (λ error. IsWithin text.now error) }
        ensures accepts { (image : HeapImage) (more : List ℕ) → IsValid image → IsWaiting image self.now text.now (length text.now) more
            → result ≡ Ok tt }
    {
        if !self.can_be_completed(text, seen) {
            return Err(TextError::Line(self.line, Expected::Newline));
        }
        Ok(())
    }

    /// Whether more bytes can complete the unfinished line at the end of `text`. If it is long, its bytes at `seen` or later
    /// are tested.
    fn can_be_completed(&self, text: &[u8], seen: usize) -> bool
        requires stands { EndsInLine text.now (length text.now) self.now.line self.now.begin }
        requires seen { seen ≤ length text.now }
        ensures { (image : HeapImage) (more : List ℕ) → IsValid image → IsWaiting image self.now text.now (length text.now) more
            → result ≡ true }
    {
        let len = text.len() - self.begin;
        if len as u64 > self.parser.longest_line() {
            return false;
        }
        len <= LONG_LINE || is_of_line(&text[seen.max(self.begin)..])
    }

    /// Returns the contents of a text that ends here.
    pub(crate) fn finish(self, text: &[u8]) -> Result<ParsedHeap, TextError>
        requires { EndsInLine text.now (length text.now) self.line self.begin }
        ensures line { IfErr result (λ error. IsWithin text.now error) }
        ensures accepts { (image : HeapImage) → IsValid image → IsWaiting image self text.now (length text.now) []
            → AcceptsText result (HasContents image) }
    {
        let TextParser {
            parser,
            line,
            begin,
        } = self;
        if begin < text.len() {
            return Err(TextError::Line(line, Expected::Newline));
        }
        match parser.finish() {
            Ok(heap) => Ok(heap),
            Err(expected) => Err(TextError::Line(line, expected)),
        }
    }
}

/// Whether a line of a text may have all of these bytes.
fn is_of_line(bytes: &[u8]) -> bool
    ensures { list_all is_text_byte bytes.now ≡ true → result ≡ true }
{
    for byte in bytes {
        if !is_text_byte(*byte) {
            return false;
        }
    }
    true
}

/// Whether a line of a text may have this byte.
fn is_text_byte(byte: u8) -> bool
    ensures { result ≡ is_text_byte byte }
{
    matches!(byte, b' ' | b'-' | b'@' | b'0'..=b'9' | b'a'..=b'z')
}
