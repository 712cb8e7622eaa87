//! Collections in the caller's thread.
use crate::checks::equal;
use crate::heaps::{compacted_text, figures};
use collector::{Figures, OpenGate, collect_alone};
use heap_image::{Alone, Fault, decode, encode};
use heap_samples::Base;
use std::alloc::Global;
use std::test::Fail;

/// Collects the text `before`. Returns the figures, and whether the image then has the text `after`.
fn collected_alone(
    alloc: Global,
    (before, after): (&[u8], &[u8]),
) -> Result<(Figures, bool), Fault> {
    let image = decode(alloc, before, &Alone)?;
    match collect_alone(alloc, image, &OpenGate) {
        Ok((outcome, _finished)) => {
            let text = encode(alloc, &outcome.image)?;
            Ok((outcome.figures, text.as_slice() == after))
        }
        Err(refusal) => Err(refusal.fault()),
    }
}

#[test]
fn one_thread_collects_the_base_heap(rt: HostRuntime) -> Result<(), Fail> {
    let before = Base::WithLiveList.text(rt.alloc(), 2)?;
    let after = compacted_text(rt.alloc(), &before, &rt)?;
    let found = collected_alone(rt.alloc(), (&before, &after))?;
    equal(&rt, found, (figures(8, 21, 3), true));
    Ok(())
}

#[test]
fn one_thread_redirects_roots(rt: HostRuntime) -> Result<(), Fail> {
    let before = Base::WithRoots.text(rt.alloc(), 2)?;
    let after = compacted_text(rt.alloc(), &before, &rt)?;
    let found = collected_alone(rt.alloc(), (&before, &after))?;
    equal(&rt, found, (figures(8, 21, 3), true));
    Ok(())
}
