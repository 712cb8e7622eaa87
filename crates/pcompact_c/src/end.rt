//! The end of a collection by several threads.
ghost use Rattle.std.specs.Prelude.{◌≡◌, ◌<◌, ◌≤◌, ◌⊎◌, List, ◌++◌, ◌∷◌, [], Some, None, Err, IsTrue, IfOk, OnOk, OnErr, IfErr, MatchOption, MatchResult, All, map, length};
ghost use Rattle.image_streams.specs.declared.fault.Fault.TheVariants.{Length, Memory, Workers};
ghost use Rattle.object_heap.specs.HeapImage.{HeapImage};
ghost use Rattle.heap_image.specs.ImageText.{with_tail};
ghost use Rattle.summary.specs.Compaction.{compact};
ghost use Rattle.collector.specs.Collections.{figures_of};
ghost use Rattle.collector.specs.Sessions.{image_of};
ghost use Rattle.collector.specs.declared.session.share.Share.{Share};
ghost use Rattle.caller_heap.specs.Lent.{HoldImage, IsGone};
ghost use Rattle.caller_heap.specs.declared.part.Origin.TheVariants.{Copied, Lent};
ghost use Rattle.pcompact_c.specs.Answers.{IsSummaryOf};
ghost use Rattle.pcompact_c.specs.Faults.{IsFaultFor};
ghost use Rattle.pcompact_c.specs.Handles.{AreFrom, AreSpent, HaveNoParts, HaveSameParts, IsLastIn, IsWhyNotEnded, share_in};

use crate::answer::PcompactAnswer;
use crate::handle::PcompactHandle;
use caller_heap::{Origin, Part, end_lent_words, put_tail, put_words, suits};
use collector::{Figures, Outcome, Share};
use heap_image::{Fault, Image, Version};
use raw_region::HostWords;
use std::alloc::Global;

/// Ends a collection by several threads: fills what is left to fill, and writes the words of the compaction, and its live
/// addresses or roots in the same order. `handles` are all those of one begin over a copy. Returns the number of the fault in
/// `answer`. After a fault the words and the list are as they were.
///
/// The fault is 12 if these aren't the handles of such a begin: then they are as they were, and their collections go on.
/// Otherwise none is held afterwards. It is 4 if the words or the list are not as many as there, or 11 if memory runs out. No
/// contract excludes that none is held after fault 12, as none follows which handles are all of one begin.
#[unsafe(no_mangle)]
pub extern "C" fn pcompact_end(
    alloc: Global,
    handles: &mut [PcompactHandle],
    words: &mut [u64],
    list: &mut [u64],
    answer: &mut PcompactAnswer,
) -> u32
    ensures number { result ≡ answer.new.fault.number }
    ensures origin { AreFrom Copied handles.old ⊎ (result ≡ 12) }
    ensures refused { result ≡ 12 → HaveSameParts handles.old handles.new ⊎ AreSpent Copied handles.old handles.new }
    ensures free { HaveNoParts handles.new ⊎ (result ≡ 12) }
    ensures collected { result ≡ 0 → (image : HeapImage) × IsLastIn image handles.old
        × (words.new ≡ (compact image).words) × (list.new ≡ (with_tail (compact image)).live)
        × IsSummaryOf image answer.new }
    ensures kept { 0 < result → (words.new ≡ words.old) × (list.new ≡ list.old) }
    ensures fault { 0 < result → IsFaultFor IsWhyNotEnded answer.new.fault }
{
    answer.put(end(alloc, handles, words, list))
}

/// Ends a collection by several threads over lent words: fills what is left to fill, puts each region of the compaction
/// back into its words, and writes the new live addresses or roots in the same order. `handles` are all those of one begin,
/// `words` those that it lent, and `place` is the one that it named.
///
/// The fault is 12 if these aren't the handles of one begin with this place, 4 if the words or the list are not as many as
/// there or some words are held, or 11 if memory runs out: then handles, words and list are as they were, and the
/// collection goes on. After 0 no handle is held. No contract excludes that none is held after fault 12 and nothing is
/// promised of words and list, as none follows which handles are all of one begin, and whose memory a region has.
#[unsafe(no_mangle)]
pub extern "C" fn pcompact_end_lent_at(
    alloc: Global,
    handles: &mut [PcompactHandle],
    words: &mut [HostWords],
    list: &mut [u64],
    place: u64,
) -> PcompactAnswer
    ensures origin { AreFrom (Lent place) handles.old ⊎ (result.fault.number ≡ 12) }
    ensures free { result.fault.number ≡ 0 → HaveNoParts handles.new }
    ensures collected { result.fault.number ≡ 0 → (image : HeapImage) × IsLastIn image handles.old
        × HoldImage (compact image) words.new × (list.new ≡ (with_tail (compact image)).live)
        × IsSummaryOf image result }
    ensures kept { 0 < result.fault.number → ((words.new ≡ words.old) × (list.new ≡ list.old)
        × HaveSameParts handles.old handles.new)
        ⊎ ((result.fault.number ≡ 12) × AreSpent (Lent place) handles.old handles.new) }
    ensures fault { 0 < result.fault.number → IsFaultFor IsWhyNotEnded result.fault }
{
    PcompactAnswer::of(end_lent(alloc, handles, words, list, place))
}

/// Ends the session of these handles, whose words are a copy, and writes the words of the compaction, and its live addresses or
/// roots. After a fault the words and the list are as they were. After fault 12 the handles are too, unless their shares were of
/// several sessions; otherwise none has a share.
fn end(
    alloc: Global,
    handles: &mut [PcompactHandle],
    words: &mut [u64],
    list: &mut [u64],
) -> Result<Figures, Fault>
    ensures origin { AreFrom Copied handles.old ⊎ (result ≡ Err Workers) }
    ensures refused { result ≡ Err Workers → HaveSameParts handles.old handles.new ⊎ AreSpent Copied handles.old handles.new }
    ensures free { HaveNoParts handles.new ⊎ (result ≡ Err Workers) }
    ensures collected { IfOk result (λ figures. (image : HeapImage) × IsLastIn image handles.old
        × (words.new ≡ (compact image).words) × (list.new ≡ (with_tail (compact image)).live) × (figures ≡ figures_of image)) }
    ensures kept { OnErr result ((words.new ≡ words.old) × (list.new ≡ list.old)) }
    ensures fault { IfErr result IsWhyNotEnded }
{
    if !are_all_of_one(alloc, Origin::Copied, handles) {
        return Err(Fault::Workers);
    }
    let room = room_for(alloc, handles.len());
    let shares = take_shares(alloc, room, handles)?;
    let outcome = outcome_of(shares)?;
    put_back(&outcome.image, words, list)?;
    Ok(outcome.figures)
}

/// Takes the shares out of these handles, each of which has one, in their order, into a list with room for them. If memory
/// runs out or there is no list, the shares are dropped. The fault is that of the list, or 11, or 12 for a handle without a
/// share.
pub(crate) fn take_shares(
    alloc: Global,
    room: Result<Vec<Share>, Fault>,
    handles: &mut [PcompactHandle],
) -> Result<Vec<Share>, Fault>
    requires none { IfOk room (λ shares. shares.items ≡ []) }
    requires fault { IfErr room (λ fault. (fault ≡ Memory) ⊎ (fault ≡ Workers)) }
    ensures free { HaveNoParts handles.new }
    ensures shares { IfOk result (λ shares. map share_in handles.old ≡ map Some shares.items) }
    ensures fault { IfErr result (λ fault. (fault ≡ Memory) ⊎ (fault ≡ Workers)) }
{
    let mut taken = room;
    for handle in handles.iter_mut() {
        taken = with_share(taken, handle.leave(alloc));
    }
    taken
}

/// An empty list with room for `count` shares. Fails with fault 11 if memory runs out.
pub(crate) fn room_for(alloc: Global, count: usize) -> Result<Vec<Share>, Fault>
    ensures none { IfOk result (λ shares. shares.items ≡ []) }
    ensures fault { IfErr result (λ fault. fault ≡ Memory) }
{
    Ok(Vec::with_capacity(alloc, count)?)
}

/// The shares so far, if there was no fault, and that of one more part. No part, or one without a share, is fault 12.
fn with_share(
    taken: Result<Vec<Share>, Fault>,
    part: Option<Box<Part, Global>>,
) -> Result<Vec<Share>, Fault>
    requires fault { IfErr taken (λ fault. (fault ≡ Memory) ⊎ (fault ≡ Workers)) }
    ensures shares { IfOk result (λ all. MatchResult taken
        (λ so_far. MatchOption part ⊥ (λ more. map Some all.items ≡ map Some so_far.items ++ more.value.share ∷ [])) (λ _. ⊥)) }
    ensures fault { IfErr result (λ fault. (fault ≡ Memory) ⊎ (fault ≡ Workers)) }
{
    let mut shares = taken?;
    let Some(part) = part else {
        return Err(Fault::Workers);
    };
    let Part {
        share,
        check: _,
        slide: _,
        marking: _,
        origin: _,
    } = Box::into_inner(part);
    let Some(share) = share else {
        return Err(Fault::Workers);
    };
    shares.push(share)?;
    Ok(shares)
}

/// Ends the session of these shares, and returns what it made of the last one's image. Fails with fault 12 if they aren't all
/// of one session.
fn outcome_of(mut shares: Vec<Share>) -> Result<Outcome, Fault>
    ensures outcome { IfOk result (λ outcome. (others : List Share) × (last : Share) × (shares.items ≡ others ++ last ∷ [])
        × (outcome.image ≡ compact (image_of last)) × (outcome.figures ≡ figures_of (image_of last))) }
    ensures fault { IfErr result (λ fault. fault ≡ Workers) }
{
    let Some(share) = shares.pop() else {
        return Err(Fault::Workers);
    };
    share.end(shares)
}

/// Writes the words and the live addresses or roots of an image over lists of as many. Fails with fault 4 if a list has
/// another length, and writes nothing then.
fn put_back(image: &Image, words: &mut [u64], list: &mut [u64]) -> Result<(), Fault>
    ensures words { IfOk result (λ _. words.new ≡ image.now.words) }
    ensures list { IfOk result (λ _. list.new ≡ (with_tail image.now).live) }
    ensures kept { OnErr result ((words.new ≡ words.old) × (list.new ≡ list.old)) }
    ensures fault { IfErr result (λ fault. fault ≡ Length) }
{
    if words.len() as u64 != image.len() || list.len() != tail_len(image) {
        return Err(Fault::Length);
    }
    put_words(image, words);
    put_tail(image, list);
    Ok(())
}

/// The number of live addresses of an image of version 1, otherwise of its roots.
fn tail_len(image: &Image) -> usize
    ensures { result ≡ length (with_tail image.now).live }
{
    match image.version() {
        Version::One => image.live().len(),
        Version::Two | Version::Three => image.roots().len(),
    }
}

/// Ends the session of these handles, whose words were lent in a list at this place, and puts the words of the compaction
/// back, and its live addresses or roots. After a fault all is as it was, unless no handle has a share after fault 12.
fn end_lent(
    alloc: Global,
    handles: &mut [PcompactHandle],
    words: &mut [HostWords],
    list: &mut [u64],
    place: u64,
) -> Result<Figures, Fault>
    ensures origin { AreFrom (Lent place) handles.old ⊎ (result ≡ Err Workers) }
    ensures free { OnOk result (HaveNoParts handles.new) }
    ensures collected { IfOk result (λ figures. (image : HeapImage) × IsLastIn image handles.old
        × HoldImage (compact image) words.new × (list.new ≡ (with_tail (compact image)).live) × (figures ≡ figures_of image)) }
    ensures kept { IfErr result (λ fault. ((words.new ≡ words.old) × (list.new ≡ list.old)
        × HaveSameParts handles.old handles.new)
        ⊎ ((fault ≡ Workers) × AreSpent (Lent place) handles.old handles.new)) }
    ensures fault { IfErr result IsWhyNotEnded }
{
    if !are_all_of_one(alloc, Origin::Lent(place), handles) {
        return Err(Fault::Workers);
    }
    if !suit(alloc, handles, words.len(), list.len()) || !are_gone(words) {
        return Err(Fault::Length);
    }
    let room = room_for(alloc, handles.len())?;
    match take_shares(alloc, Ok(room), handles) {
        Ok(shares) => end_shares(shares, words, list),
        Err(_) => Err(Fault::Workers),
    }
}

/// Whether the image of the session of these handles has `regions` regions and `numbers` live addresses or roots.
fn suit(alloc: Global, handles: &mut [PcompactHandle], regions: usize, numbers: usize) -> bool
    requires { 1 ≤ length handles.old }
    ensures { HaveSameParts handles.old handles.new }
{
    handles[0].suits(alloc, regions, numbers)
}

/// Whether no words are held.
pub(crate) fn are_gone(words: &mut [HostWords]) -> bool
    ensures gone { IsTrue result → All IsGone words.old }
    ensures same { words.new ≡ words.old }
{
    for place in words.iter_mut() {
        if place.is_held() {
            return false;
        }
    }
    true
}

/// Ends the session of these shares into words that it suits. Fails with fault 12 if they aren't all of one session over lent
/// words that suits these.
fn end_shares(
    mut shares: Vec<Share>,
    words: &mut [HostWords],
    list: &mut [u64],
) -> Result<Figures, Fault>
    requires gone { All IsGone words.old }
    ensures collected { IfOk result (λ figures. (others : List Share) × (last : Share) × (shares.items ≡ others ++ last ∷ [])
        × HoldImage (compact (image_of last)) words.new × (list.new ≡ (with_tail (compact (image_of last))).live)
        × (figures ≡ figures_of (image_of last))) }
    ensures fault { IfErr result (λ fault. fault ≡ Workers) }
{
    let Some(share) = shares.pop() else {
        return Err(Fault::Workers);
    };
    if !suits(&share, words.len(), list.len()) {
        return Err(Fault::Workers);
    }
    end_lent_words(words, list, share, shares)
}

/// Whether these are all handles of one collection, and that has its words from there.
pub(crate) fn are_all_of_one(alloc: Global, origin: Origin, handles: &mut [PcompactHandle]) -> bool
    ensures parts { HaveSameParts handles.old handles.new }
    ensures some { IsTrue result → 1 ≤ length handles.old }
    ensures origin { IsTrue result → AreFrom origin handles.old }
{
    if handles.is_empty() {
        return false;
    }
    let shares = handles.len();
    let are_from = count_in(alloc, origin, handles);
    let are_all = handles[0].are_all_counted(alloc, shares);
    count_out(alloc, handles);
    are_from && are_all
}

/// Counts the shares of these handles among those at hand. Returns whether each has one, of a collection that has its words
/// from there.
fn count_in(alloc: Global, origin: Origin, handles: &mut [PcompactHandle]) -> bool
    ensures parts { HaveSameParts handles.old handles.new }
    ensures origin { IsTrue result → AreFrom origin handles.old }
{
    let mut are_from = true;
    for handle in handles.iter_mut() {
        let is_from = handle.count_in(alloc, origin);
        are_from = are_from && is_from;
    }
    are_from
}

/// Takes the shares of these handles out of that count.
fn count_out(alloc: Global, handles: &mut [PcompactHandle])
    ensures { HaveSameParts handles.old handles.new }
{
    for handle in handles.iter_mut() {
        handle.count_out(alloc);
    }
}
