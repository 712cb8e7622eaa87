//! What a recorder keeps of fills of the base heap: how many words are reported, and when.
ghost use Rattle.std.specs.Prelude.{◌≡◌, [], IfOk};
ghost use Rattle.claim_board.specs.Boards.{board_of, held};
ghost use Rattle.claim_board.specs.RegionBoards.{identity};
ghost use Rattle.fill.specs.KeptImages.{KeepsImage};

use crate::checks::{equal, equal_items};
use crate::heaps::fill;
use crate::kept::keep;
use claim_board::{Desk, Recorder, Seat};
use fill::Filler;
use heap_samples::{BASE_LIVE, base_image};
use history::write_schedule;
use scheduler::{Book, CallFault, moves_of_images};
use std::alloc::{AllocError, Global};
use std::sync::Wait;
use std::test::Fail;
use std::thread::Threads;
use summary::Survey;
use thread_row::Many;

/// The schedule of fills with allowance 0.
const SLID: &str = "schedule 1 1
0 claim 0 yes
0 copy 0 6 ok
0 copy 0 2 ok
0 drain 0 1 last
0 complete 0 ok
0 settle 0 more
0 claim 1 yes
0 copy 1 1 ok
0 copy 1 4 ok
0 drain 1 2 last
0 copy 1 3 ok
0 drain 1 3 notlast
0 complete 1 ok
0 settle 1 more
0 claim 2 yes
0 copy 2 3 ok
0 drain 2 3 last
0 complete 2 ok
0 settle 2 all
";

/// The schedule of fills with allowance 2, with which the first region stays.
const AFTER_PREFIX: &str = "schedule 1 1
0 claim 0 yes
0 copy 0 8 ok
0 complete 0 ok
0 settle 0 more
0 claim 1 yes
0 copy 1 3 ok
0 copy 1 4 ok
0 drain 1 2 last
0 copy 1 1 ok
0 drain 1 3 notlast
0 complete 1 ok
0 settle 1 more
0 claim 2 yes
0 copy 2 5 ok
0 drain 2 3 last
0 complete 2 ok
0 settle 2 all
";

/// A heap and a recorder of its fills by one worker.
#[derive(Drop)]
struct RecordedHeap {
    survey: Survey,
    recorder: Recorder,
    ghost keeps: { KeepsImage survey recorder.board },
}

/// The base heap with this allowance, an empty recorder, and the seat of its only worker.
fn base_heap<T: Threads + Sync>(
    alloc: Global,
    allowance: u64,
    threads: &T,
) -> Result<(RecordedHeap, Seat), Fail>
    ensures { IfOk result (λ made. (board_of made.1.pass ≡ identity made.0.recorder.board) × (held made.1.pass ≡ [])) }
{
    let image = base_image(alloc, allowance, &BASE_LIVE)?;
    let survey = Survey::of(alloc, &image, &Many { threads, most: 2 })?;
    let (board, seat) = keep(alloc, &image, survey.plan())?;
    let book = Book::new(alloc, survey.plan(), 1)?;
    let recorder = Recorder::new(board, book);
    Ok((RecordedHeap { survey, recorder }, seat))
}

/// Tries to fill the four regions in ascending order. Returns the sources that the fills report as last drained.
fn fill_four<W: Wait>(heap: &RecordedHeap, seat: &mut Seat, alloc: Global, wait: &W) -> Vec<u32>
    requires board { board_of seat.old.pass ≡ identity heap.now.recorder.board }
    requires bare { held seat.old.pass ≡ [] }
{
    let filler = Filler {
        desk: &heap.recorder,
        survey: &heap.survey,
        wait,
        redirects: true,
    };
    let mut sources = Vec::new(alloc);
    for region in 0..4 {
        fill(&filler, seat, &mut sources, region);
    }
    sources
}

/// The schedule that the recorder has kept, and why calls are missing.
fn schedule_of(
    alloc: Global,
    heap: RecordedHeap,
) -> Result<(Vec<u8>, Option<CallFault>), AllocError> {
    let RecordedHeap {
        survey: _,
        recorder,
    } = heap;
    let (_board, schedule, missing) = recorder.into_parts();
    Ok((write_schedule(alloc, &schedule)?, missing))
}

/// The schedule of fills of the base heap with this allowance, in ascending order, and why calls are missing.
fn base_schedule<R: Threads + Wait + Sync>(
    alloc: Global,
    allowance: u64,
    rt: &R,
) -> Result<(Vec<u8>, Option<CallFault>), Fail> {
    let (heap, mut seat) = base_heap(alloc, allowance, rt)?;
    let _sources = fill_four(&heap, &mut seat, alloc, rt);
    Ok(schedule_of(alloc, heap)?)
}

#[test]
fn the_words_are_reported_before_each_drain(rt: HostRuntime) -> Result<(), Fail> {
    for (allowance, schedule) in [(0, SLID), (2, AFTER_PREFIX)] {
        let (text, missing) = base_schedule(rt.alloc(), allowance, &rt)?;
        equal_items(&rt, text.as_slice(), schedule.as_bytes());
        equal(&rt, missing, None);
    }
    Ok(())
}

/// Whether region 3 is granted. Gives it up if it is.
fn is_granted<W: Wait>(heap: &RecordedHeap, seat: &mut Seat, wait: &W) -> Result<bool, Fail>
    requires board { board_of seat.old.pass ≡ identity heap.now.recorder.board }
    requires bare { held seat.old.pass ≡ [] }
{
    moves_of_images();
    if heap.survey.plan().regions() != 4 {
        return Err(Fail::from("not four regions"));
    }
    match heap.recorder.claim(seat, 3, wait) {
        Some((ticket, _region)) => {
            ticket.give_up();
            Ok(true)
        }
        None => Ok(false),
    }
}

/// Whether region 3 of the base heap is granted, and the schedule of that claim.
fn claimed_region_3<R: Threads + Wait + Sync>(
    alloc: Global,
    rt: &R,
) -> Result<(bool, Vec<u8>), Fail> {
    let (heap, mut seat) = base_heap(alloc, 0, rt)?;
    let is_granted = is_granted(&heap, &mut seat, rt)?;
    let (text, _missing) = schedule_of(alloc, heap)?;
    Ok((is_granted, text))
}

#[test]
fn a_region_that_is_not_to_be_filled_is_refused(rt: HostRuntime) -> Result<(), Fail> {
    let (is_granted, text) = claimed_region_3(rt.alloc(), &rt)?;
    equal(&rt, is_granted, false);
    equal_items(&rt, text.as_slice(), b"schedule 1 1\n0 claim 3 no\n");
    Ok(())
}
