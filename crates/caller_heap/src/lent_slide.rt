//! Slides of opaque objects where their words lie, in regions that a host lends.
ghost use Rattle.std.specs.Prelude.{◌≡◌, ℕ, List, ◌⊎◌, ◌≤◌, All, IfOk, OnOk, IfErr, IfSome, IfNone, Some, length, map, vec_len};
ghost use Rattle.object_heap.specs.HeapImage.{region_count};
ghost use Rattle.image_streams.specs.declared.fault.Fault.TheVariants.{Workers};
ghost use Rattle.collector.specs.Collections.{figures_of};
ghost use Rattle.collector.specs.Sessions.{image_of, held_of};
ghost use Rattle.caller_heap.specs.Lent.{AreBack, IsGone, IsNotLent, content, held, words_in};
ghost use Rattle.caller_heap.specs.Slides.{HoldSlid, IsSlidPart, IsWhyNotSlid};
ghost use Rattle.caller_heap.specs.declared.part.Origin.TheVariants.{Slid};

use crate::lending::{keep_all, lend_all};
use crate::part::{Origin, Part, empty_parts, with_shares};
use collector::{Figures, RefusedSlide, Share, Slide};
use heap_image::Fault;
use raw_region::HostWords;
use scheduler::MAX_WORKERS;
use std::alloc::Global;

/// A slide that can't begin, and why.
#[derive(Drop)]
pub struct SlideBack {
    pub slide: Slide,
    pub fault: Fault,
}

/// Begins a planned slide by `workers` workers in these words, which lends each as a region, from address 0 up. Returns a part
/// for each worker, which says that the words were lent in a list at this place. Its end by [`end_slide`](crate::end_slide)
/// puts the words back; until then none is held.
///
/// If it is refused, the slide is still planned, and all words are held as they were: with fault 12 if there aren't 1 to 64
/// workers, 4 if the words aren't as many regions as the plan has, or not a region each, or 11 if memory runs out. No contract
/// excludes fault 12 for another reason, as none follows whose memory a region has: so none promises the words after it.
pub fn begin_slide(
    alloc: Global,
    slide: Slide,
    words: &mut [HostWords],
    workers: u32,
    place: u64,
) -> Result<Vec<Box<Part, Global>>, SlideBack>
    ensures parts { IfOk result (λ parts. All (λ part. IsSlidPart slide (map words_in words.old) (Slid place) part.value) parts.items) }
    ensures count { IfOk result (λ parts. vec_len parts ≡ workers) }
    ensures regions { OnOk result (length words.old ≡ region_count slide) }
    ensures gone { OnOk result (All IsGone words.new) }
    ensures slide { IfErr result (λ back. back.slide ≡ slide) }
    ensures back { IfErr result (λ back. AreBack words.old words.new ⊎ IsNotLent back.fault) }
    ensures fault { IfErr result (λ back. IsWhyNotSlid back.fault) }
{
    let fault = refused(&slide, words.len(), workers);
    if let Some(fault) = fault {
        return Err(SlideBack { slide, fault });
    }
    let (Ok(room), Ok(empty)) = (
        Vec::with_capacity(alloc, workers as usize),
        empty_parts(alloc, workers, Origin::Slid(place)),
    ) else {
        return Err(SlideBack {
            slide,
            fault: Fault::Memory,
        });
    };
    let regions = match lend_all(alloc, words, slide.region_log()) {
        Ok(regions) => regions,
        Err(fault) => return Err(SlideBack { slide, fault }),
    };
    match slide.begin(alloc, regions, workers) {
        Ok(shares) => Ok(with_shares(empty, shares, room)),
        Err(refused) => Err(give_back(words, refused)),
    }
}

/// Gives the words of a slide that didn't begin back, each region in its place.
fn give_back(words: &mut [HostWords], refused: RefusedSlide) -> SlideBack
    requires gone { All IsGone words.old }
    requires count { length words.old ≡ length refused.regions.items }
    ensures slide { result.slide ≡ refused.slide }
    ensures back { (map content words.new ≡ map held refused.regions.items) ⊎ IsNotLent result.fault }
    ensures fault { (result.fault ≡ refused.fault) ⊎ IsNotLent result.fault }
{
    let RefusedSlide {
        slide,
        regions,
        fault,
    } = refused;
    match keep_all(words, regions) {
        Ok(()) => SlideBack { slide, fault },
        Err(other) => SlideBack {
            slide,
            fault: other,
        },
    }
}

/// Why a slide doesn't begin by so many workers in so many regions, if it doesn't.
fn refused(slide: &Slide, regions: usize, workers: u32) -> Option<Fault>
    ensures fault { IfSome result IsWhyNotSlid }
    ensures begins { IfNone result ((regions ≡ region_count slide.now) × ((1 ≤ workers) × (workers ≤ 64))) }
{
    if workers == 0 || workers > MAX_WORKERS {
        return Some(Fault::Workers);
    }
    if regions != slide.regions() as usize {
        return Some(Fault::Length);
    }
    None
}

/// Ends a slide over as many lent words as it has regions: fills what is left to fill, and gives the words back to the host,
/// each region in its place. `others` are the shares of all other workers.
///
/// Fails with fault 12 if these aren't all shares of one slide over lent words. The words are lost then.
pub fn end_slide(
    words: &mut [HostWords],
    share: Share,
    others: Vec<Share>,
) -> Result<Figures, Fault>
    requires gone { All IsGone words.old }
    requires count { length words.old ≡ region_count (image_of share) }
    ensures words { OnOk result ((blocks : List (List ℕ)) → held_of share ≡ Some blocks → HoldSlid (image_of share) blocks words.new) }
    ensures figures { IfOk result (λ figures. figures ≡ figures_of (image_of share)) }
    ensures fault { IfErr result (λ fault. fault ≡ Workers) }
{
    let (regions, figures) = share.end_slide(others)?;
    if regions.len() != words.len() {
        return Err(Fault::Workers);
    }
    keep_all(words, regions)?;
    Ok(figures)
}
