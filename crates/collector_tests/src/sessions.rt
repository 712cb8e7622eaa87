//! Collections whose workers are run by calls.
use crate::checks::equal;
use crate::heaps::{compacted_text, figures};
use collector::{Figures, Progress, Session, Share};
use heap_image::{Alone, Fault, decode, encode};
use heap_samples::Base;
use std::alloc::Global;
use std::test::Fail;

/// The shares of a session over the image with this text.
fn shares_of(alloc: Global, text: &[u8], workers: u32) -> Result<Vec<Share>, Fault> {
    match Session::prepare(alloc, decode(alloc, text, &Alone)?, workers) {
        Ok(shares) => Ok(shares),
        Err(refusal) => Err(refusal.fault()),
    }
}

/// Ends a session. Returns the figures, and whether the image then has the text `after`.
fn ended(alloc: Global, mut shares: Vec<Share>, after: &[u8]) -> Result<(Figures, bool), Fault> {
    let Some(share) = shares.pop() else {
        return Err(Fault::Workers);
    };
    let outcome = share.end(shares)?;
    let text = encode(alloc, &outcome.image)?;
    Ok((outcome.figures, text.as_slice() == after))
}

/// Lets each share take one turn.
fn turn_each(shares: &mut [Share]) {
    for share in shares.iter_mut() {
        let _progress = share.work(1);
    }
}

/// Lets the shares work by turns, four each.
fn work_by_turns(shares: &mut [Share]) {
    for _ in 0..4 {
        turn_each(shares);
    }
}

/// Collects the text `before` by this many shares. Returns the figures, and whether the image then has the text `after`.
fn collected_by(
    alloc: Global,
    (before, after): (&[u8], &[u8]),
    workers: u32,
) -> Result<(Figures, bool), Fault> {
    let mut shares = shares_of(alloc, before, workers)?;
    work_by_turns(shares.as_mut_slice());
    ended(alloc, shares, after)
}

#[test]
fn shares_collect_the_base_heap(rt: HostRuntime) -> Result<(), Fail> {
    let before = Base::WithLiveList.text(rt.alloc(), 2)?;
    let after = compacted_text(rt.alloc(), &before, &rt)?;
    for workers in [1, 2, 4, 16] {
        let found = collected_by(rt.alloc(), (&before, &after), workers)?;
        equal(&rt, found, (figures(8, 21, 3), true));
    }
    Ok(())
}

#[test]
fn shares_redirect_roots(rt: HostRuntime) -> Result<(), Fail> {
    let before = Base::WithRoots.text(rt.alloc(), 2)?;
    let after = compacted_text(rt.alloc(), &before, &rt)?;
    let found = collected_by(rt.alloc(), (&before, &after), 2)?;
    equal(&rt, found, (figures(8, 21, 3), true));
    Ok(())
}

/// How far the first share comes in each of four calls of one turn, and in one of no turn before them.
fn by_turns(alloc: Global, text: &[u8]) -> Result<[Option<Progress>; 5], Fault> {
    let mut shares = shares_of(alloc, text, 1)?;
    let mut come = [None; 5];
    for (turns, found) in [0, 1, 1, 1, 1].into_iter().zip(come.iter_mut()) {
        if let Some(share) = shares.first_mut() {
            *found = Some(share.work(turns));
        }
    }
    Ok(come)
}

#[test]
fn a_share_works_by_turns(rt: HostRuntime) -> Result<(), Fail> {
    let before = Base::WithLiveList.text(rt.alloc(), 2)?;
    let (used, settled) = (Some(Progress::TurnsUsed), Some(Progress::Settled));
    let found = by_turns(rt.alloc(), &before)?;
    equal(&rt, found, [used, used, used, settled, settled]);
    Ok(())
}

/// How far the only share of a session comes in one turn, once it has worked as long as there was something to fill.
fn once_worked(alloc: Global, text: &[u8]) -> Result<Progress, Fault> {
    let mut shares = shares_of(alloc, text, 1)?;
    let Some(share) = shares.first_mut() else {
        return Err(Fault::Workers);
    };
    share.work_all();
    Ok(share.work(1))
}

#[test]
fn a_share_works_until_all_regions_are_settled(rt: HostRuntime) -> Result<(), Fail> {
    let before = Base::WithLiveList.text(rt.alloc(), 2)?;
    let found = once_worked(rt.alloc(), &before)?;
    equal(&rt, found, Progress::Settled);
    Ok(())
}

#[test]
fn the_end_fills_what_is_left(rt: HostRuntime) -> Result<(), Fail> {
    let before = Base::WithLiveList.text(rt.alloc(), 2)?;
    let after = compacted_text(rt.alloc(), &before, &rt)?;
    let shares = shares_of(rt.alloc(), &before, 3)?;
    equal(
        &rt,
        ended(rt.alloc(), shares, &after)?,
        (figures(8, 21, 3), true),
    );
    Ok(())
}

/// The fault at the end of a session of two shares with the second alone, and with one of another session.
fn faults_of_others(alloc: Global, text: &[u8]) -> Result<[Option<Fault>; 2], Fault> {
    let mut shares = shares_of(alloc, text, 2)?;
    drop(shares.pop());
    let alone = ended(alloc, shares, text).err();
    Ok([alone, fault_of_two_sessions(alloc, text)?])
}

/// The fault at the end of two shares of two sessions.
fn fault_of_two_sessions(alloc: Global, text: &[u8]) -> Result<Option<Fault>, Fault> {
    let mut shares = shares_of(alloc, text, 2)?;
    let mut others = shares_of(alloc, text, 2)?;
    drop(shares.pop());
    if let Some(other) = others.pop() {
        shares.push(other)?;
    }
    Ok(ended(alloc, shares, text).err())
}

#[test]
fn the_end_wants_all_shares_of_one_session(rt: HostRuntime) -> Result<(), Fail> {
    let before = Base::WithLiveList.text(rt.alloc(), 2)?;
    let found = faults_of_others(rt.alloc(), &before)?;
    equal(&rt, found, [Some(Fault::Workers), Some(Fault::Workers)]);
    Ok(())
}

#[test]
fn a_session_has_1_to_64_workers(rt: HostRuntime) -> Result<(), Fail> {
    let before = Base::WithLiveList.text(rt.alloc(), 2)?;
    for workers in [0, 65] {
        let refused = shares_of(rt.alloc(), &before, workers).err();
        equal(&rt, refused, Some(Fault::Workers));
    }
    let most = shares_of(rt.alloc(), &before, 64)?;
    equal(&rt, most.len(), 64);
    Ok(())
}

/// Whether the last share of a session gives the image back, after this number of turns and without the others.
fn is_given_back(alloc: Global, text: &[u8], turns: u64) -> Result<bool, Fault> {
    let mut shares = shares_of(alloc, text, 2)?;
    let Some(mut share) = shares.pop() else {
        return Err(Fault::Workers);
    };
    let _progress = share.work(turns);
    drop(shares);
    match share.give_back() {
        Some(image) => Ok(encode(alloc, &image)?.as_slice() == text),
        None => Ok(false),
    }
}

#[test]
fn an_image_comes_back_while_no_region_is_claimed(rt: HostRuntime) -> Result<(), Fail> {
    let before = Base::WithLiveList.text(rt.alloc(), 2)?;
    equal(&rt, is_given_back(rt.alloc(), &before, 0)?, true);
    equal(&rt, is_given_back(rt.alloc(), &before, 9)?, false);
    Ok(())
}

/// Whether both shares of a session are all of it, counted one after the other, and then one counted out.
fn counts(alloc: Global, text: &[u8]) -> Result<[bool; 3], Fault> {
    let shares = shares_of(alloc, text, 2)?;
    let [first, second] = shares.as_slice() else {
        return Err(Fault::Workers);
    };
    first.count_in();
    let one = first.are_all_counted(1) || first.are_all_counted(2);
    second.count_in();
    let both = first.are_all_counted(2);
    second.count_out();
    Ok([one, both, first.are_all_counted(2)])
}

#[test]
fn shares_are_counted(rt: HostRuntime) -> Result<(), Fail> {
    let before = Base::WithLiveList.text(rt.alloc(), 2)?;
    let found = counts(rt.alloc(), &before)?;
    equal(&rt, found, [false, true, false]);
    Ok(())
}
