//! The C interface of the collector. `c/pcompact.h` declares it, and says what a caller must keep.
//!
//! No call starts a thread or waits, and all state is in the handles of collections by several threads. Memory is allocated
//! by the C library's heap alone.
//!
//! Proved: what each contract says of what a call returns and writes. Only tested: the texts of faults,
//! and how far workers come.
#![tactic(auto)]

ghost use Rattle.std.specs.Prelude.{◌≡◌};

mod answer;
mod begin;
mod check;
mod collect;
mod decode;
mod encode;
mod end;
mod fault;
mod fault_text;
mod handle;
mod layout;
mod marking;
mod objects;
mod places;
mod plan;
mod raw_box;
mod references;
mod slide;
mod verdict;
mod verify;
mod work;

pub use answer::PcompactAnswer;
pub use begin::PcompactLentSettings;
pub use caller_heap::{HeapSettings as PcompactSettings, SlotCoding as PcompactSlotCoding};
pub use decode::PcompactHeap;
pub use fault::PcompactFault;
pub use handle::PcompactHandle;
pub use object_coding::ObjectLayout as PcompactLayout;
pub use objects::PcompactObjects;
pub use raw_region::HostWords as PcompactWords;
pub use slide::PcompactOpaqueHeap;
pub use verdict::PcompactVerdict;

/// The version as `1_000_000 * major + 1_000 * minor + patch`.
#[unsafe(no_mangle)]
pub extern "C" fn pcompact_version() -> u32
    ensures { result ≡ 3000 }
{
    3_000
}
