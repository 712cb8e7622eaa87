//! A collection from bytes to bytes.
ghost use Rattle.std.specs.Prelude.{◌≡◌, IfOk};
ghost use Rattle.object_heap.specs.HeapImage.{HeapImage, IsValid};
ghost use Rattle.heap_image.specs.ImageText.{text};
ghost use Rattle.summary.specs.Compaction.{compact};

use collector::{OpenGate, collect_stream};
use heap_image::{Fault, FromRead, ToWrite};
use std::sync::Wait;
use std::thread::Threads;

/// Collects the image with this text, and returns the text of its compaction.
pub fn compact_bytes<R: AllocGlobal + Threads + Wait + Sync>(
    rt: &R,
    before: &[u8],
) -> Result<Vec<u8>, Fault>
    ensures { IfOk result (λ after. (image : HeapImage) × IsValid image × (before.now ≡ text image)
        × (after.items ≡ text (compact image))) }
{
    let mut reader = FromRead::new(before);
    let mut writer = ToWrite::new(Vec::new(rt.alloc()));
    collect_stream(rt.alloc(), &mut reader, &mut writer, 4, &OpenGate, rt, rt)?;
    Ok(writer.into_inner())
}
