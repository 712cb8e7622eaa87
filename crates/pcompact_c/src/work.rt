//! The work of a thread in a collection by several threads.
ghost use Rattle.std.specs.Prelude.{◌≡◌, ◌≤◌, ◌⊎◌, ◌↔◌, None};
ghost use Rattle.pcompact_c.specs.Checks.{checked_in};
ghost use Rattle.pcompact_c.specs.Handles.{image_in, origin_in};
ghost use Rattle.pcompact_c.specs.Slides.{held_in};

use crate::handle::PcompactHandle;
use collector::Progress;
use std::alloc::Global;

/// All regions to fill are settled, or all objects to check are taken.
const SETTLED: u32 = 0;
/// The turns are used up.
const TURNS_USED: u32 = 1;
/// No region is ready. Another worker may make some ready.
const NONE_READY: u32 = 2;
/// The handle isn't held.
const NOT_HELD: u32 = 5;

/// Fills regions that are ready by the worker of a handle, at most `turns`, or checks objects, at most `turns` times 2,048. Returns
/// at once if none is ready. Allocates nothing, and never waits. Returns how far the work has come.
#[unsafe(no_mangle)]
pub extern "C" fn pcompact_work(alloc: Global, handle: &mut PcompactHandle, turns: u64) -> u32
    ensures image { image_in handle.new ≡ image_in handle.old }
    ensures held { held_in handle.new ≡ held_in handle.old }
    ensures check { checked_in handle.new ≡ checked_in handle.old }
    ensures origin { origin_in handle.new ≡ origin_in handle.old }
    ensures not_held { result ≡ 5 ↔ handle.old.2 ≡ None }
    ensures known { (result ≤ 2) ⊎ (result ≡ 5) }
{
    match handle.work(alloc, turns) {
        Some(progress) => number_of(progress),
        None => NOT_HELD,
    }
}

/// Fills regions by the worker of a handle until all are settled, and spins while none is ready, or checks objects until all are
/// taken. Allocates nothing. Returns that they are settled, or that the handle isn't held.
#[unsafe(no_mangle)]
pub extern "C" fn pcompact_work_all(alloc: Global, handle: &mut PcompactHandle) -> u32
    ensures image { image_in handle.new ≡ image_in handle.old }
    ensures held { held_in handle.new ≡ held_in handle.old }
    ensures check { checked_in handle.new ≡ checked_in handle.old }
    ensures origin { origin_in handle.new ≡ origin_in handle.old }
    ensures not_held { result ≡ 5 ↔ handle.old.2 ≡ None }
    ensures known { (result ≡ 0) ⊎ (result ≡ 5) }
{
    match handle.work_all(alloc) {
        Some(()) => SETTLED,
        None => NOT_HELD,
    }
}

/// The number of how far the work has come.
fn number_of(progress: Progress) -> u32
    ensures { result ≤ 2 }
{
    match progress {
        Progress::Settled => SETTLED,
        Progress::TurnsUsed => TURNS_USED,
        Progress::NoneReady => NONE_READY,
    }
}
