//! Parses a text line by line.
ghost use Rattle.std.specs.Prelude.{◌≡◌, ◌<◌, ◌≤◌, ◌++◌, ◌∷◌, ℕ, Bool, true, false, Some, IsTrue, if◌then◌else◌, codes, decimal};
ghost use Rattle.object_heap.specs.HeapImage.{HeapImage, IsWithinLimits, version_of};
ghost use Rattle.object_heap.specs.Version.{Allows, has_roots, max_region_log};
ghost use Rattle.heap_text.specs.declared.line_parser.next_line.NextLine.TheVariants.{Roots, Heap};

mod dead_line;
pub(crate) mod line_error;
mod next_line;
mod object_line;
mod roots_line;
pub(crate) mod tokens;

use crate::expected::Expected;
use crate::parsed_heap::ParsedHeap;
use heap_image::Version;
use heap_image::limits::MIN_REGION_LOG;
use line_error::LineError;
use next_line::NextLine;
use roots_line::parse_roots;
use std::alloc::Global;
use tokens::{Tokens, parse_address, parse_labelled};

/// Parses one line after the other, each without its newline.
#[derive(Drop)]
pub(crate) struct LineParser {
    next: NextLine,
    /// The contents of the lines before.
    heap: ParsedHeap,
    /// How many words the heap has.
    len: u64,
    /// Whether the line before is a dead run.
    follows_dead_run: bool,
    ghost few: { len ≤ 68719476736 },
}

impl LineParser {
    ghost use Rattle.std.specs.Prelude.{◌+◌, ◌^◌, [], List, OnOk, length};
    ghost use Rattle.std.specs.List.{AllByRecursion};
    ghost use Rattle.object_heap.specs.Header.{object_header};
    ghost use Rattle.object_heap.specs.HeapImage.{HeapImage, IsValid};
    ghost use Rattle.heap_text.specs.Text.{number_text, text_of};
    ghost use Rattle.heap_text.specs.TextBytes.{longest};
    ghost use Rattle.heap_text.specs.TextLines.{ended_lines};
    ghost use Rattle.heap_text.specs.Words.{Accepts, HasParsed, data_part, dead_part, references_part};
    ghost use Rattle.heap_text.specs.Parsing.{AcceptsEnd, Expects, HasContents, IsAtAllowance, IsAtRegionLog, IsAtRoots, IsAtVersion, IsAtWords, IsInHeap};

    /// Expects the first line.
    pub(crate) fn new(alloc: Global) -> LineParser
        ensures { (image : HeapImage) (text : List ℕ) → text ≡ text_of image → Expects image result text }
    {
        LineParser {
            next: NextLine::Version,
            heap: ParsedHeap::new(alloc),
            len: 0,
            follows_dead_run: false,
        }
    }

    /// Parses the next line.
    pub(crate) fn parse_line(&mut self, line: &[u8]) -> Result<(), LineError>
        ensures { (image : HeapImage) (rest : List ℕ) → IsValid image → Expects image self.old (line.now ++ (10 ∷ rest))
            → ended_lines line.now ≡ 0 → Accepts result (λ _. Expects image self.new rest) }
    {
        match self.next {
            NextLine::Version => self.parse_version(line),
            NextLine::RegionLog => self.parse_region_log(line),
            NextLine::Words => self.parse_words(line),
            NextLine::Allowance => self.parse_allowance(line),
            NextLine::Roots => self.parse_roots(line),
            NextLine::Heap => self.parse_heap_line(line),
        }
    }

    /// The most bytes that the next line can have: each word takes at most a space and 20 digits.
    pub(crate) fn longest_line(&self) -> u64
        ensures { result ≡ longest self.now.next self.now.len }
    {
        match self.next {
            NextLine::Roots | NextLine::Heap => 64 + 21 * self.len,
            _ => 64,
        }
    }

    /// Returns the contents of all lines, or what the next line should be if some are missing.
    pub(crate) fn finish(self) -> Result<ParsedHeap, Expected>
        ensures { (image : HeapImage) → IsValid image → Expects image self [] → AcceptsEnd result (HasContents image) }
    {
        match self.next {
            NextLine::Version => Err(Expected::Version),
            NextLine::RegionLog => Err(self.heap.expected_region_log()),
            NextLine::Words => Err(self.heap.expected_words()),
            NextLine::Allowance => Err(Expected::Allowance),
            NextLine::Roots => Err(Expected::Roots),
            NextLine::Heap => self.finish_heap(),
        }
    }

    fn finish_heap(self) -> Result<ParsedHeap, Expected>
        ensures { (image : HeapImage) → IsValid image → IsInHeap image self [] → AcceptsEnd result (HasContents image) }
    {
        let here = self.heap.words.len();
        if here == self.len {
            Ok(self.heap)
        } else {
            Err(Expected::Place(here))
        }
    }

    fn parse_version(&mut self, line: &[u8]) -> Result<(), LineError>
        ensures { (image : HeapImage) (rest : List ℕ) → IsAtVersion image self.old (line.now ++ (10 ∷ rest)) → ended_lines line.now ≡ 0
            → Accepts result (λ _. Expects image self.new rest) }
    {
        let Some(version) = parse_version_line(line) else {
            return Err(LineError::Expected(Expected::Version));
        };
        self.heap.version = version;
        self.next = NextLine::RegionLog;
        Ok(())
    }

    fn parse_region_log(&mut self, line: &[u8]) -> Result<(), LineError>
        ensures { (image : HeapImage) (rest : List ℕ) → IsValid image → IsAtRegionLog image self.old (line.now ++ (10 ∷ rest))
            → ended_lines line.now ≡ 0 → Accepts result (λ _. Expects image self.new rest) }
    {
        let Some(log) = parse_labelled(line, b"region-log ".as_slice()) else {
            return Err(LineError::Expected(self.heap.expected_region_log()));
        };
        if !is_region_log(self.heap.version, log) {
            return Err(LineError::Expected(self.heap.expected_region_log()));
        }
        self.heap.region_log = log as u32;
        self.next = NextLine::Words;
        Ok(())
    }

    fn parse_words(&mut self, line: &[u8]) -> Result<(), LineError>
        ensures { (image : HeapImage) (rest : List ℕ) → IsValid image → IsAtWords image self.old (line.now ++ (10 ∷ rest))
            → ended_lines line.now ≡ 0 → Accepts result (λ _. Expects image self.new rest) }
    {
        let Some(len) = parse_labelled(line, b"words ".as_slice()) else {
            return Err(LineError::Expected(self.heap.expected_words()));
        };
        if !is_heap_size(self.heap.version, len, self.heap.region_log) {
            return Err(LineError::Expected(self.heap.expected_words()));
        }
        self.len = len;
        self.next = NextLine::Allowance;
        Ok(())
    }

    fn parse_allowance(&mut self, line: &[u8]) -> Result<(), LineError>
        ensures { (image : HeapImage) (rest : List ℕ) → IsValid image → IsAtAllowance image self.old (line.now ++ (10 ∷ rest))
            → ended_lines line.now ≡ 0 → Accepts result (λ _. Expects image self.new rest) }
    {
        let Some(allowance) = parse_labelled(line, b"allowance ".as_slice()) else {
            return Err(LineError::Expected(Expected::Allowance));
        };
        self.heap.allowance = allowance;
        self.next = line_after_allowance(self.heap.version);
        Ok(())
    }

    fn parse_roots(&mut self, line: &[u8]) -> Result<(), LineError>
        ensures { (image : HeapImage) (rest : List ℕ) → IsValid image → IsAtRoots image self.old (line.now ++ (10 ∷ rest))
            → ended_lines line.now ≡ 0 → Accepts result (λ _. Expects image self.new rest) }
    {
        let (name, tokens) = Tokens::of(line);
        if name != b"roots".as_slice() {
            return Err(LineError::Expected(Expected::Roots));
        }
        parse_roots(&mut self.heap.roots, self.len, tokens)?;
        self.next = NextLine::Heap;
        Ok(())
    }

    /// Parses the line of an object or of a dead run.
    fn parse_heap_line(&mut self, line: &[u8]) -> Result<(), LineError>
        ensures { (image : HeapImage) (rest : List ℕ) → IsValid image → IsInHeap image self.old (line.now ++ (10 ∷ rest))
            → ended_lines line.now ≡ 0 → Accepts result (λ _. (self.new.next ≡ self.old.next) × IsInHeap image self.new rest) }
    {
        let here = self.heap.words.len();
        if here >= self.len {
            return Err(LineError::Expected(Expected::End));
        }
        let (place, mut tokens) = Tokens::of(line);
        if !is_address(place, here) {
            return Err(LineError::Expected(Expected::Place(here)));
        }
        let Some(kind) = tokens.next_token() else {
            return Err(LineError::Expected(Expected::Kind));
        };
        if kind == b"object".as_slice() {
            return self.parse_object(here, tokens);
        }
        if kind == b"dead".as_slice() {
            return self.parse_dead(here, tokens);
        }
        Err(LineError::Expected(Expected::Kind))
    }

    fn parse_object(&mut self, here: u64, tokens: Tokens<'_>) -> Result<(), LineError>
        requires here { here ≡ self.old.heap.words.len }
        requires left { here < self.old.len }
        ensures accepts { (refs others : List ℕ) → AllByRecursion (λ w. w ≤ self.old.len) refs → AllByRecursion (λ w. w < 2 ^ 64) others
            → tokens.entry.rest.now ≡ number_text (1 + (length refs + length others)) ++ (references_part refs ++ data_part others)
            → self.old.heap.words.len + (1 + (length refs + length others)) ≤ self.old.len
            → 1 + (length refs + length others) < 2 ^ 32 → length refs < 2 ^ 24
            → Accepts result (λ _. HasParsed self.old.heap self.new.heap
            (object_header (1 + (length refs + length others)) (length refs) ∷ (refs ++ others)) (self.old.heap.words.len ∷ [])) }
        ensures next { self.new.next ≡ self.old.next }
        ensures len { self.new.len ≡ self.old.len }
        ensures follows { OnOk result (self.new.follows_dead_run ≡ false) }
    {
        self.heap.parse_object(self.len, tokens)?;
        self.follows_dead_run = false;
        Ok(())
    }

    fn parse_dead(&mut self, here: u64, tokens: Tokens<'_>) -> Result<(), LineError>
        requires here { here ≡ self.old.heap.words.len }
        requires left { here < self.old.len }
        ensures accepts { (ws : List ℕ) → AllByRecursion (λ w. w < 2 ^ 64) ws → 0 < length ws
            → tokens.entry.rest.now ≡ number_text (length ws) ++ dead_part ws → self.old.heap.words.len + length ws ≤ self.old.len
            → self.old.follows_dead_run ≡ false → Accepts result (λ _. HasParsed self.old.heap self.new.heap ws []) }
        ensures next { self.new.next ≡ self.old.next }
        ensures len { self.new.len ≡ self.old.len }
        ensures follows { OnOk result (self.new.follows_dead_run ≡ true) }
    {
        if self.follows_dead_run {
            return Err(LineError::Expected(Expected::Object(here)));
        }
        self.heap.parse_dead(self.len, tokens)?;
        self.follows_dead_run = true;
        Ok(())
    }
}

/// The version, by the first line.
fn parse_version_line(line: &[u8]) -> Option<Version>
    ensures { (image : HeapImage) → line.now ≡ codes "heap version " ++ decimal (version_of image) → result ≡ Some image.version }
{
    match parse_labelled(line, b"heap version ".as_slice()) {
        Some(1) => Some(Version::One),
        Some(2) => Some(Version::Two),
        Some(3) => Some(Version::Three),
        _ => None,
    }
}

/// Whether a token is `@` and this address.
fn is_address(token: &[u8], address: u64) -> bool
    ensures { token.now ≡ 64 ∷ decimal address → result ≡ true }
{
    parse_address(token) == Some(address)
}

/// The line after that of the allowance.
fn line_after_allowance(version: Version) -> NextLine
    ensures rooted { has_roots version ≡ true → result ≡ Roots }
    ensures plain { has_roots version ≡ false → result ≡ Heap }
{
    if version.has_roots() {
        NextLine::Roots
    } else {
        NextLine::Heap
    }
}

/// Whether regions may have 2 to the power of `log` words in this version.
fn is_region_log(version: Version, log: u64) -> bool
    ensures within { IsTrue result → log ≤ 20 }
    ensures all { 3 ≤ log → log ≤ max_region_log version → result ≡ true }
{
    u64::from(MIN_REGION_LOG) <= log && log <= u64::from(version.max_region_log())
}

/// Whether `len` words are whole regions, and this version allows their number.
fn is_heap_size(version: Version, len: u64, region_log: u32) -> bool
    ensures within { IsTrue result → len ≤ 68719476736 }
    ensures all { (count : ℕ) → IsWithinLimits region_log len count → Allows version region_log len → result ≡ true }
{
    let region_words = 1u64 << region_log.min(20);
    1 <= len
        && len <= version.max_words()
        && len % region_words == 0
        && len / region_words <= version.max_regions()
}
