//! A collection by four workers.
ghost use Rattle.std.specs.Prelude.{◌≡◌, IfOk};
ghost use Rattle.heap_image.specs.ImageText.{text};
ghost use Rattle.summary.specs.Compaction.{compact};

use collector::{OpenGate, collect};
use heap_image::{Fault, Image, encode};
use std::sync::Wait;
use std::thread::Threads;

/// Collects an image with four workers, and returns the text of its compaction.
pub fn text_after<R: AllocGlobal + Threads + Wait + Sync>(
    rt: &R,
    image: Image,
) -> Result<Vec<u8>, Fault>
    ensures { IfOk result (λ after. after.items ≡ text (compact image)) }
{
    let (outcome, _history) = match collect(rt.alloc(), image, 4, &OpenGate, rt, rt) {
        Ok(done) => done,
        Err(refusal) => return Err(refusal.fault()),
    };
    Ok(encode(rt.alloc(), &outcome.image)?)
}
