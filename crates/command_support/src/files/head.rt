//! The head of an image that is read with another region log or allowance than its own.
ghost use Rattle.std.specs.Prelude.{◌≡◌, ◌++◌, ℕ, List, None, unwrap_or};
ghost use Rattle.heap_image.specs.ImageText.{front};
ghost use Rattle.object_heap.specs.declared.version.Version.{Version};
ghost use Rattle.command_line.specs.declared.shape.Shape.{Shape as Wanted};
ghost use Rattle.command_support.specs.Heads.{byte_at, byte_read, bytes_read};

use command_line::Shape;
use heap_image::FRONT_BYTES;

/// Where the region log is in the head.
const REGION_LOG: usize = 8;

/// Where the allowance is in the head.
const ALLOWANCE: usize = 24;

/// Replaces what the shape has of a piece of an image's file, which begins at the position `at`.
pub fn reshape(shape: Shape, at: usize, piece: &mut [u8])
    ensures { piece.new ≡ bytes_read shape at piece.old }
{
    let len = piece.len().min(FRONT_BYTES.saturating_sub(at));
    for i in 0..len {
        piece[i] = byte_read(shape, at + i, piece[i]);
    }
}

/// What is read in place of the byte at a position.
fn byte_read(shape: Shape, position: usize, byte: u8) -> u8
    ensures { result ≡ byte_read shape position byte }
{
    byte_at(shape, position).unwrap_or(byte)
}

/// The byte that the shape has at a position.
fn byte_at(shape: Shape, position: usize) -> Option<u8>
    ensures { result ≡ byte_at shape position }
{
    if REGION_LOG <= position && position < REGION_LOG + 4 {
        return Some(shape.region_log?.to_le_bytes()[position - REGION_LOG]);
    }
    if ALLOWANCE <= position && position < ALLOWANCE + 8 {
        return Some(shape.allowance?.to_le_bytes()[position - ALLOWANCE]);
    }
    None
}

/// A shape that changes nothing leaves all bytes as they are.
pub fn unchanged_heads_stay()
    ensures { (shape : Wanted) → shape.region_log ≡ None → shape.allowance ≡ None
        → (at : ℕ) (bytes : List ℕ) → bytes_read shape at bytes ≡ bytes }
{}

/// The head that is read is the one with the values of the shape in place of its own. The body is read as it is.
pub fn heads_have_shapes()
    ensures { (shape : Wanted) (version : Version) (region_log count words allowance : ℕ) (body : List ℕ)
        → bytes_read shape 0 (front version region_log count words allowance ++ body)
        ≡ front version (unwrap_or shape.region_log region_log) count words (unwrap_or shape.allowance allowance) ++ body }
{}
