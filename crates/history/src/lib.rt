//! Schedules: their text, check and replay.
//!
//! - `write_schedule` makes a schedule's text, and `read_schedule` parses it or names the first
//!   malformed line.
//! - `check` runs a schedule on the word machine without moving a word, `reply` also returns the machine's
//!   replies, and `replay` runs it on a copy of the heap. All name the first line that the machine refuses,
//!   and `explain` says why.
//!
//! The scheduler, its tables of moves and its histories are those of the crate `scheduler`, shown here
//! under the same names.
//!
//! The laws have no body; their contracts are theorems. `drained_before_written` is about the word
//! machine, the scheduler with a heap: in every list of calls that it allows, each copy finds each word
//! as it was at the start. `one_schedule_a_text` and `malformed_is_no_schedule` are about texts, and
//! `what_replays_keep` is about the calls of a replay.
//!
//! `specs/Slide.antt` and `specs/WordMachine.antt` define the word machine, `specs/ScheduleText.antt`
//! and `specs/ReadSchedule.antt` the text of a schedule, and `specs/Replay.antt`,
//! `specs/LineCause.antt` and `specs/Replayed.antt` the results of a replay. The contracts are proved.
//! Only tested: that allocations succeed.
#![tactic(auto)]

mod laws;
mod machine;
mod schedule;

pub use laws::drained_before_written;
pub use laws::record_laws::checked_histories_are_records;
pub use laws::replay_laws::what_replays_keep;
pub use laws::text_laws::{malformed_is_no_schedule, one_schedule_a_text};
pub use machine::checking::{check, explain};
pub use machine::line_cause::LineCause;
pub use machine::refused_line::RefusedLine;
pub use machine::replayed::{End, Replayed};
pub use machine::replaying::replay;
pub use machine::replied::Replied;
pub use machine::replying::reply;
pub use schedule::schedule_device::read_schedule_from;
pub use schedule::schedule_reading::read_schedule;
pub use schedule::schedule_text::{append_schedule, write_schedule};
pub use scheduler::{
    Book, CallFault, Entry, Event, GivenMoves, Illegal, IndexedMoves, Line, LockedBoard,
    MAX_WORKERS, Moves, Reply, Schedule, Scheduler, count_readers, count_sources,
    how_counts_go_down, legal_histories_are_orderly, moves_are_lawful, moves_of_images,
    pairs_slide_down, settled_histories_have_each_once, what_legal_histories_keep,
    what_own_calls_tell,
};
