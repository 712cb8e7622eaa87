//! Which words are references of live objects, and when each is redirected.

ghost use Rattle.std.specs.Prelude.{◌≡◌, ◌+◌, ◌<◌, IfOk, length, Contains};
ghost use Rattle.object_heap.specs.HeapImage.{word_at};
ghost use Rattle.summary.specs.Compaction.{is_deferred};
ghost use Rattle.summary.specs.Updates.{is_late_reference};
ghost use Rattle.history.specs.WordMachine.{is_redirected};
ghost use Rattle.history.specs.Carrier.{AreFlags, AreSet};

use crate::laws::image_laws::new_words_fit;
use heap_image::{Image, header};
use std::alloc::{AllocError, Global};
use summary::Plan;
use summary::laws::plans::{image_is_own, planned_image_is_own};

/// For each old address, whether its word is a reference of an object that isn't deferred.
pub(crate) fn early_references(
    alloc: Global,
    image: &Image,
    plan: &Plan,
) -> Result<Vec<bool>, AllocError>
    requires plan { plan.now ≡ image.now }
    ensures { IfOk result (λ flags. AreFlags image.now (is_redirected image.now) flags.items) }
{
    image_is_own(image);
    let mut flags = vec![in alloc; false; image.len() as usize]?;
    for a in image.live() {
        let header = image.word(*a);
        if !is_deferred(plan, *a, header) {
            set_after(&mut flags, *a, header::references(header));
        }
    }
    Ok(flags)
}

/// For each new address, whether a reference of a deferred object goes there.
pub(crate) fn late_references(
    alloc: Global,
    image: &Image,
    plan: &Plan,
) -> Result<Vec<bool>, AllocError>
    requires plan { plan.now ≡ image.now }
    ensures { IfOk result (λ flags. AreFlags image.now (is_late_reference image.now) flags.items) }
{
    new_words_fit();
    image_is_own(image);
    let mut flags = vec![in alloc; false; image.len() as usize]?;
    for a in image.live() {
        let header = image.word(*a);
        if is_deferred(plan, *a, header) {
            let begin = plan.new_address(*a);
            set_after(&mut flags, begin, header::references(header));
        }
    }
    Ok(flags)
}

/// Whether the live object at `a` with this header is deferred.
fn is_deferred(plan: &Plan, a: u64, header: u64) -> bool
    requires live { Contains plan.now.live a }
    requires header { header ≡ word_at plan.now a }
    ensures { result ≡ is_deferred plan.now a }
{
    new_words_fit();
    planned_image_is_own(plan);
    let size = plan.region_words();
    let begin = plan.new_address(a);
    let last = begin + u64::from(header::size(header)) - 1;
    begin / size != last / size
}

/// Sets the flags of the `number` words after `begin`.
fn set_after(flags: &mut [bool], begin: u64, number: u32)
    requires { begin + number < length flags.old }
    ensures { AreSet flags.old flags.new begin (begin + number) }
{
    let first = begin as usize + 1;
    flags[first..first + number as usize].fill(true);
}
