//! Tests of checks that several threads share, by one thread.
ghost use Rattle.std.specs.Prelude.{IfOk};
ghost use Rattle.object_heap.specs.HeapImage.{AreBlocks};

use crate::checks::{equal, equal_bytes};
use crate::images::from_regions::base_parts;
use crate::images::texts::base_text;
use heap_image::{Alone, CheckShare, Fault, UncheckedParts, begin_check, encode};
use heap_samples::BASE_LIVE;
use std::alloc::Global;
use std::test::Fail;

/// The parts of the base heap with a live list, unchecked.
fn parts_with(alloc: Global, live: &[u64]) -> Result<UncheckedParts, Fail>
    ensures { IfOk result (λ parts. AreBlocks parts.region_log parts.regions.items) }
{
    let parts = base_parts(alloc)?;
    let tail = Vec::from_slice(alloc, live)?;
    Ok(UncheckedParts {
        version: parts.version,
        region_log: parts.region_log,
        allowance: parts.allowance,
        regions: parts.regions,
        tail,
    })
}

/// A share in the check of the base heap with a live list.
fn share_with(alloc: Global, live: &[u64]) -> Result<CheckShare, Fail> {
    let Ok(check) = begin_check(alloc, parts_with(alloc, live)?, &Alone) else {
        return Err(Fail::from("refused"));
    };
    match CheckShare::of(alloc, check) {
        Ok(share) => Ok(share),
        Err(_) => Err(Fail::from("no memory")),
    }
}

#[test]
fn one_of_two_shares_checks_all(rt: HostRuntime) -> Result<(), Fail> {
    let share = share_with(rt.alloc(), &BASE_LIVE)?;
    let other = share.another()?;
    let turns = (other.work(0), other.work(2), share.work(1));
    equal(&rt, turns, (false, true, true));
    share.count_in();
    let counted = (share.are_all_counted(1), share.are_all_counted(2));
    share.count_out();
    equal(&rt, counted, (false, false));
    drop(other);
    let Ok(check) = share.into_check() else {
        return Err(Fail::from("there is another share"));
    };
    let Ok(image) = check.finish(rt.alloc()) else {
        return Err(Fail::from("refused"));
    };
    let text = base_text(rt.alloc())?;
    equal_bytes(&rt, encode(rt.alloc(), &image)?.as_slice(), text.as_slice());
    Ok(())
}

#[test]
fn another_share_keeps_the_check(rt: HostRuntime) -> Result<(), Fail> {
    let share = share_with(rt.alloc(), &BASE_LIVE)?;
    let regions = share.regions();
    let other = share.another()?;
    let is_kept = share.into_check().is_err();
    equal(&rt, (is_kept, other.regions()), (true, regions));
    let Ok(check) = other.into_check() else {
        return Err(Fail::from("there is another share"));
    };
    equal(
        &rt,
        (check.regions(), check.into_regions().len()),
        (regions, regions),
    );
    Ok(())
}

#[test]
fn an_unsound_object_is_found_in_the_end(rt: HostRuntime) -> Result<(), Fail> {
    let share = share_with(rt.alloc(), &[1])?;
    let Ok(check) = share.into_check() else {
        return Err(Fail::from("there is another share"));
    };
    let regions = check.regions();
    let Err(refused) = check.finish(rt.alloc()) else {
        return Err(Fail::from("taken"));
    };
    equal(
        &rt,
        (refused.fault, refused.regions.len()),
        (Fault::Header(1), regions),
    );
    Ok(())
}
