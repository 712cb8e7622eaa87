//! Parses a text in memory or from a device.
ghost use Rattle.std.specs.Prelude.{◌≡◌, ◌<◌, ◌++◌, ◌≢◌, [], true, false, List, ℕ, IfErr, IfSome, Some, IsTrue, OnOk, length, vec_len};
ghost use Rattle.std.specs.Io.KnownBytes.{Consumes, IsAtEnd};
ghost use Rattle.object_heap.specs.HeapImage.{HeapImage, IsValid};
ghost use Rattle.heap_text.specs.Parsing.{AcceptsFrom, AcceptsText, HasContents};
ghost use Rattle.heap_text.specs.Text.{text_of};
ghost use Rattle.heap_text.specs.TextLines.{IsAbout, IsOfNoLine, IsWithin};

use crate::error::{AssembleError, TextError};
use crate::parsed_heap::ParsedHeap;
use crate::text_parser::TextParser;
use heap_image::Intake;
use std::alloc::Global;

/// How many bytes are requested from a device at a time.
const PIECE: usize = 65_536;

/// Parses a text, which may still describe an invalid heap.
pub(crate) fn parse_text(alloc: Global, text: &[u8]) -> Result<ParsedHeap, TextError>
    ensures line { IfErr result (λ error. IsWithin text.now error) }
    ensures accepts { (image : HeapImage) → IsValid image → text.now ≡ text_of image → AcceptsText result (HasContents image) }
{
    let mut parser = TextParser::new(alloc);
    parser.parse_lines(text, 0)?;
    parser.finish(text)
}

/// As [`parse_text`], of a text that a device gives and that is kept in `text`. Nothing is requested after the piece in
/// which a line is wrong.
pub(crate) fn parse_from<R: Intake>(
    alloc: Global,
    device: &mut R,
    text: &mut Vec<u8>,
) -> Result<ParsedHeap, AssembleError>
    requires { text.old.items ≡ [] }
    ensures text { OnOk result (Consumes (R.left device.old) (R.left device.new) text.new.items) }
    ensures end { OnOk result (IsAtEnd (R.left device.new)) }
    ensures line { IfErr result (λ error. IfSome (R.left device.old) (λ bytes. IsAbout bytes error)) }
    ensures device { result ≡ Err AssembleError.Device → IsTrue (R.has_failed device.new) }
    ensures accepts { (image : HeapImage) → IsValid image → R.left device.old ≡ Some (text_of image)
        → AcceptsFrom result (HasContents image) }
{
    let mut piece = vec![in alloc; 0u8; PIECE]?;
    let mut parser = TextParser::new(alloc);
    let mut seen = 0;
    while read_piece(device, piece.as_mut_slice(), text)? {
        parser.parse_lines(text.as_slice(), seen)?;
        parser.check_unfinished_line(text.as_slice(), seen)?;
        seen = text.len();
    }
    Ok(parser.finish(text.as_slice())?)
}

/// Appends the next bytes of a device to `text`, and returns whether there are any.
fn read_piece<R: Intake>(
    device: &mut R,
    piece: &mut [u8],
    text: &mut Vec<u8>,
) -> Result<bool, AssembleError>
    requires { 0 < length piece.old }
    ensures more { OnOk result ((came : List ℕ) × (text.new.items ≡ text.old.items ++ came)
        × Consumes (R.left device.old) (R.left device.new) came) }
    ensures some { result ≡ Ok true → vec_len text.old < vec_len text.new }
    ensures end { result ≡ Ok false → IsAtEnd (R.left device.new) × (text.new.items ≡ text.old.items) }
    ensures line { IfErr result IsOfNoLine }
    ensures device { result ≡ Err AssembleError.Device → IsTrue (R.has_failed device.new) }
{
    let came = device.take(piece)?;
    text.extend_from_slice(&piece[..came])?;
    Ok(came > 0)
}
