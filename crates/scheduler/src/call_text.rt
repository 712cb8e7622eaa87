//! Printing of events and replies.

use crate::event::Event;
use crate::reply::Reply;
use std::fmt;

impl fmt::Display for Event {
    ghost use Rattle.std.specs.Prelude.{Some};
    ghost use Rattle.scheduler.specs.CallText.{event_text};

    ghost output = { λ event. Some (event_text event) };

    fn fmt<W: fmt::Write>(&self, f: &mut fmt::Formatter<W>) -> fmt::Result {
        match *self {
            Event::Claim(r) => write!(f, "claim {r}"),
            Event::Look(r) => write!(f, "look {r}"),
            Event::Drain(d, s) => write!(f, "drain {d} {s}"),
            Event::Complete(d) => write!(f, "complete {d}"),
            Event::Settle(d) => write!(f, "settle {d}"),
            Event::Poll => f.write_str("poll"),
            Event::Copy(d, n) => write!(f, "copy {d} {n}"),
        }
    }
}

impl fmt::Display for Reply {
    ghost use Rattle.std.specs.Prelude.{Some};
    ghost use Rattle.scheduler.specs.CallText.{reply_text};

    ghost output = { λ reply. Some (reply_text reply) };

    fn fmt<W: fmt::Write>(&self, f: &mut fmt::Formatter<W>) -> fmt::Result {
        f.write_str(match *self {
            Reply::Yes => "yes",
            Reply::No => "no",
            Reply::Open(n) => return write!(f, "open{n}"),
            Reply::Outside(n) => return write!(f, "out{n}"),
            Reply::Claimed => "claimed",
            Reply::Filled => "filled",
            Reply::Last => "last",
            Reply::NotLast => "notlast",
            Reply::Done => "ok",
            Reply::All => "all",
            Reply::More => "more",
        })
    }
}
