//! What a command has done before it prints.
ghost use Rattle.std.specs.Prelude.{◌≡◌, [], IfErr};
ghost use Rattle.command_support.specs.Failure.{failed_device};

use crate::replacement::Replacement;
use command_support::Trouble;
use command_times::Stats;
use std::rt::Files;

/// The outcome of a command before it prints and before new files take their places.
#[derive(Drop)]
pub struct WorkDone<'a> {
    /// What it prints.
    pub text: Vec<u8>,
    /// The new file for OUT, which takes its place once all is printed.
    pub out: Option<Replacement<'a>>,
    /// The new file for SCHEDULE.
    pub schedule: Option<Replacement<'a>>,
    /// Timings, if the command measures them.
    pub stats: Option<Stats>,
    /// Room for the text as an object, if that may be longer than a line.
    pub room: Option<Vec<u8>>,
    /// The exit status by which the command gives a verdict, or 0.
    pub status: u8,
}

impl<'a> WorkDone<'a> {
    /// The outcome of a command that prints this and replaces no file.
    pub fn printing(text: Vec<u8>) -> WorkDone<'a>
        ensures { result.text ≡ text }
    {
        WorkDone {
            text,
            out: None,
            schedule: None,
            stats: None,
            room: None,
            status: 0,
        }
    }

    /// Adds timings.
    pub fn with_stats(mut self, stats: Stats) -> WorkDone<'a>
        ensures { result.text ≡ self.entry.text }
    {
        self.stats = Some(stats);
        self
    }

    /// Adds room for the text as an object.
    pub fn with_room(mut self, room: Option<Vec<u8>>) -> WorkDone<'a>
        ensures { result.text ≡ self.entry.text }
    {
        self.room = room;
        self
    }

    /// Adds the exit status of a verdict.
    pub fn with_status(mut self, status: u8) -> WorkDone<'a>
        ensures { result.text ≡ self.entry.text }
    {
        self.status = status;
        self
    }

    /// An empty vector for the text as an object: the room that was added, else this one.
    pub fn take_room(&mut self, usual: Vec<u8>) -> Vec<u8>
        ensures empty { result.items ≡ [] }
        ensures text { self.new.text ≡ self.old.text }
    {
        let mut room = self.room.take().unwrap_or(usual);
        room.clear();
        room
    }

    /// Renames the new files to their places, OUT's first.
    ///
    /// After fault 13 no new file is left beside a place. OUT's may have taken its place.
    pub fn take_places<H: Files>(self, host: &H) -> Result<(), Trouble>
        ensures { IfErr result (λ trouble. trouble.failure ≡ failed_device) }
    {
        if let Err(trouble) = take_place(host, self.out) {
            remove(host, self.schedule);
            return Err(trouble);
        }
        take_place(host, self.schedule)
    }

    /// Removes the new files.
    pub fn remove<H: Files>(self, host: &H) {
        remove(host, self.out);
        remove(host, self.schedule);
    }
}

fn take_place<H: Files>(host: &H, replacement: Option<Replacement<'_>>) -> Result<(), Trouble>
    ensures { IfErr result (λ trouble. trouble.failure ≡ failed_device) }
{
    match replacement {
        Some(replacement) => replacement.take_place(host),
        None => Ok(()),
    }
}

fn remove<H: Files>(host: &H, replacement: Option<Replacement<'_>>) {
    if let Some(replacement) = replacement {
        replacement.remove(host);
    }
}
