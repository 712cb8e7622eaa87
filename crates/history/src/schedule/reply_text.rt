//! Parsing of replies.

ghost use Rattle.std.specs.Prelude.{◌≡◌, ◌≢◌, ℕ, IsTrue, MatchOption, decimal, nat_le};
ghost use Rattle.history.specs.ReplyText.{ReadsReply, ReadsLineReply};

use super::reading::number;
use scheduler::{Event, Reply};

/// Parses a reply to this event; `?` leaves the reply open.
pub(crate) fn parse_reply(event: Event, word: &[u8]) -> Option<Option<Reply>>
    ensures { ReadsLineReply event word.now result }
{
    match word {
        b"?" => Some(None),
        _ => Some(Some(reply(event, word)?)),
    }
}

fn reply(event: Event, word: &[u8]) -> Option<Reply>
    ensures { ReadsReply event word.now result }
{
    match event {
        Event::Claim(_) => to_claim(word),
        Event::Look(_) => to_look(word),
        Event::Drain(_, _) => to_drain(word),
        Event::Complete(_) => done(word),
        Event::Settle(_) => all_or_more(word),
        Event::Poll => all_or_more(word),
        Event::Copy(_, _) => done(word),
    }
}

fn to_claim(word: &[u8]) -> Option<Reply>
    ensures { ReadsReply (Event.Claim 0) word.now result }
{
    match word {
        b"yes" => Some(Reply::Yes),
        b"no" => Some(Reply::No),
        _ => None,
    }
}

fn to_look(word: &[u8]) -> Option<Reply>
    ensures { ReadsReply (Event.Look 0) word.now result }
{
    match word {
        b"claimed" => Some(Reply::Claimed),
        b"filled" => Some(Reply::Filled),
        [b'o', b'p', b'e', b'n', count @ ..] => Some(Reply::Open(readers(count)?)),
        [b'o', b'u', b't', count @ ..] => Some(Reply::Outside(readers(count)?)),
        _ => None,
    }
}

/// Parses a number of readers, at most 2.
fn readers(text: &[u8]) -> Option<u32>
    ensures { MatchOption result
        ((n : ℕ) → IsTrue (nat_le n 2) → text.now ≢ decimal n)
        (λ n. IsTrue (nat_le n 2) × (text.now ≡ decimal n)) }
{
    let n = number(text)?;
    if n <= 2 { Some(n) } else { None }
}

fn to_drain(word: &[u8]) -> Option<Reply>
    ensures { ReadsReply (Event.Drain 0 0) word.now result }
{
    match word {
        b"last" => Some(Reply::Last),
        b"notlast" => Some(Reply::NotLast),
        _ => None,
    }
}

/// Parses the reply to a completion or a copy.
fn done(word: &[u8]) -> Option<Reply>
    ensures { ReadsReply (Event.Complete 0) word.now result }
{
    match word {
        b"ok" => Some(Reply::Done),
        _ => None,
    }
}

/// Parses the reply to a settling or a poll.
fn all_or_more(word: &[u8]) -> Option<Reply>
    ensures { ReadsReply (Event.Settle 0) word.now result }
{
    match word {
        b"all" => Some(Reply::All),
        b"more" => Some(Reply::More),
        _ => None,
    }
}
