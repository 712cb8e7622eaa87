//! `PackedLine`: a line of a schedule in 12 bytes.
ghost use Rattle.std.specs.Prelude.{◌≡◌, IsTrue};
ghost use Rattle.scheduler.specs.PackedLine.{IsSmall, event_with, has_few_readers, reply_with};

use super::line::Line;
use super::reply_kind::ReplyKind;
use super::verb::Verb;
use crate::event::Event;
use crate::reply::Reply;
use std::marker::Model;
use std::snapshot::Snapshot;

/// A line in 12 bytes, where a [`Line`] takes 28. Contracts see the line.
#[derive(Drop)]
pub struct PackedLine {
    worker: u8,
    verb: Verb,
    reply: ReplyKind,
    /// The number of readers in the reply, if its kind has one.
    readers: u8,
    /// The numbers of the event; 0 for those that it doesn't have.
    first: u32,
    second: u32,
    line: Snapshot<Line>,
}

impl Model for PackedLine {
    ghost use Rattle.std.specs.Prelude.{◌≡◌};
    ghost use Rattle.scheduler.specs.PackedLine.{unpacked};
    ghost use Rattle.scheduler.specs.declared.schedule.line.Line.{Line};

    ghost Value = { Line };

    ghost view = { λ p. p.line.value };

    ghost invariant = { λ p. p.line.value ≡ unpacked p.worker p.verb p.first p.second p.reply p.readers };
}

impl PackedLine {
    /// Packs a line of a worker below 256, with fewer than 256 readers in its reply.
    pub fn of(line: Line) -> PackedLine
        requires { IsSmall line }
        ensures { result ≡ line }
    {
        let whole = Snapshot::of(&line);
        let (verb, first, second) = event_parts(line.event);
        let (reply, readers) = reply_parts(line.reply);
        PackedLine {
            worker: line.worker as u8,
            verb,
            reply,
            readers,
            first,
            second,
            line: whole,
        }
    }

    /// The line.
    pub fn line(&self) -> Line
        ensures { result ≡ self.now }
    {
        Line {
            worker: u32::from(self.worker),
            event: event_with(self.verb, self.first, self.second),
            reply: reply_with(self.reply, u32::from(self.readers)),
        }
    }
}

/// The verb and the numbers of an event; 0 for numbers that it doesn't have.
fn event_parts(event: Event) -> (Verb, u32, u32)
    ensures { event_with result.0 result.1 result.2 ≡ event }
{
    match event {
        Event::Claim(region) => (Verb::Claim, region, 0),
        Event::Look(region) => (Verb::Look, region, 0),
        Event::Drain(destination, source) => (Verb::Drain, destination, source),
        Event::Complete(destination) => (Verb::Complete, destination, 0),
        Event::Settle(destination) => (Verb::Settle, destination, 0),
        Event::Poll => (Verb::Poll, 0, 0),
        Event::Copy(destination, words) => (Verb::Copy, destination, words),
    }
}

/// The event of a verb with its numbers; ignores those that it doesn't have.
fn event_with(verb: Verb, first: u32, second: u32) -> Event
    ensures { result ≡ event_with verb first second }
{
    match verb {
        Verb::Claim => Event::Claim(first),
        Verb::Look => Event::Look(first),
        Verb::Drain => Event::Drain(first, second),
        Verb::Complete => Event::Complete(first),
        Verb::Settle => Event::Settle(first),
        Verb::Poll => Event::Poll,
        Verb::Copy => Event::Copy(first, second),
    }
}

/// The kind of a reply and its number of readers, or 0 if it has none.
fn reply_parts(reply: Option<Reply>) -> (ReplyKind, u8)
    requires { IsTrue (has_few_readers reply) }
    ensures { reply_with result.0 result.1 ≡ reply }
{
    match reply {
        None => (ReplyKind::Any, 0),
        Some(Reply::Yes) => (ReplyKind::Yes, 0),
        Some(Reply::No) => (ReplyKind::No, 0),
        Some(Reply::Open(readers)) => (ReplyKind::Open, readers as u8),
        Some(Reply::Outside(readers)) => (ReplyKind::Outside, readers as u8),
        Some(Reply::Claimed) => (ReplyKind::Claimed, 0),
        Some(Reply::Filled) => (ReplyKind::Filled, 0),
        Some(Reply::Last) => (ReplyKind::Last, 0),
        Some(Reply::NotLast) => (ReplyKind::NotLast, 0),
        Some(Reply::Done) => (ReplyKind::Done, 0),
        Some(Reply::All) => (ReplyKind::All, 0),
        Some(Reply::More) => (ReplyKind::More, 0),
    }
}

/// The reply of a kind with its number of readers, if the kind has one.
fn reply_with(kind: ReplyKind, readers: u32) -> Option<Reply>
    ensures { result ≡ reply_with kind readers }
{
    match kind {
        ReplyKind::Any => None,
        ReplyKind::Yes => Some(Reply::Yes),
        ReplyKind::No => Some(Reply::No),
        ReplyKind::Open => Some(Reply::Open(readers)),
        ReplyKind::Outside => Some(Reply::Outside(readers)),
        ReplyKind::Claimed => Some(Reply::Claimed),
        ReplyKind::Filled => Some(Reply::Filled),
        ReplyKind::Last => Some(Reply::Last),
        ReplyKind::NotLast => Some(Reply::NotLast),
        ReplyKind::Done => Some(Reply::Done),
        ReplyKind::All => Some(Reply::All),
        ReplyKind::More => Some(Reply::More),
    }
}
