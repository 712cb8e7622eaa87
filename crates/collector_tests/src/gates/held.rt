//! Collections in which a gate holds a worker at each of its calls in turn.
use super::{CALLS, Call, FEW_TURNS, comes};
use crate::checks::equal;
use crate::heaps::{Heap, base, figures};
use collector::{Figures, Gate};
use std::alloc::Global;
use std::sync::Wait;
use std::sync::atomic::{AtomicBool, AtomicU32, Ordering};
use std::test::Fail;
use std::thread::Threads;

/// A number that no worker has.
const NOBODY: u32 = 64;

/// Holds the worker that makes `call` until another worker calls, for at most `FEW_TURNS` polls.
///
/// It refuses region 2 until `before_fill` of region 1, which reads region 2, has returned.
#[derive(Drop)]
struct Holding {
    call: Call,
    /// The worker that has made `call`.
    held: AtomicU32,
    /// Whether another worker has called since.
    other_came: AtomicBool,
    /// Whether region 1 was admitted.
    admitted_region_1: AtomicBool,
}

impl Holding {
    fn at(call: Call) -> Holding {
        Holding {
            call,
            held: AtomicU32::new(NOBODY),
            other_came: AtomicBool::new(false),
            admitted_region_1: AtomicBool::new(false),
        }
    }

    /// Marks a call of a worker as come, and holds it if it is the one to hold.
    fn enter(&self, worker: u32, call: Call) {
        if call == self.call {
            self.held.store(worker, Ordering::SeqCst);
            let _ = comes(&self.other_came, FEW_TURNS);
            return;
        }
        let held = self.held.load(Ordering::SeqCst);
        if held != NOBODY && held != worker {
            self.other_came.store(true, Ordering::SeqCst);
        }
    }
}

impl Gate for Holding {
    ghost may_refuse = { λ _ _ _. Unit {0} };

    fn before_fill(&self, worker: u32, region: u32) -> bool {
        let is_in_order = region != 2 || self.admitted_region_1.load(Ordering::SeqCst);
        self.enter(worker, Call::Before(region));
        if region == 1 {
            self.admitted_region_1.store(true, Ordering::SeqCst);
        }
        is_in_order
    }

    fn after_complete(&self, worker: u32, region: u32) {
        self.enter(worker, Call::After(region));
    }
}

/// The figures of collections by two and by three workers, one of which is held at this call.
fn held_at<R: Threads + Wait + Sync>(
    alloc: Global,
    heap: Heap<'_>,
    call: Call,
    rt: &R,
) -> Result<[Figures; 2], Fail> {
    let by_two = heap.collected(alloc, 2, &Holding::at(call), rt)?;
    let by_three = heap.collected(alloc, 3, &Holding::at(call), rt)?;
    Ok([by_two, by_three])
}

#[test]
fn a_worker_held_at_any_point_changes_nothing(rt: HostRuntime) -> Result<(), Fail> {
    for call in CALLS {
        let slid = held_at(rt.alloc(), base(0), call, &rt)?;
        equal(&rt, slid, [figures(0, 19, 3); 2]);
        let kept = held_at(rt.alloc(), base(2), call, &rt)?;
        equal(&rt, kept, [figures(8, 21, 3); 2]);
    }
    Ok(())
}
