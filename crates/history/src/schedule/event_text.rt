//! Parsing of events.

ghost use Rattle.std.specs.Prelude.{◌≡◌, ◌≢◌, ℕ, ◌<◌, ◌^◌, ◌∷◌, ◌++◌, List, IsTrue, MatchOption, IfSome, IfNone, decimal};
ghost use Rattle.history.specs.Verb.{verb_text, verb_of, has_numbers, numbers_then};
ghost use Rattle.scheduler.specs.CallText.{event_text};
ghost use Rattle.scheduler.specs.declared.event.Event.{Event};
ghost use Rattle.scheduler.specs.declared.schedule.verb.Verb.{Verb};

use super::reading::{number_to, word};
use scheduler::{Event, Verb};

/// Parses the event at the front of `bytes`, up to a space. Returns it with the bytes after the space.
pub(crate) fn event(bytes: &[u8]) -> Option<(Event, &[u8])>
    ensures { MatchOption result
        ((event : Event) (rest : List ℕ) → IsTrue (has_numbers event) → bytes.now ≢ event_text event ++ 32 ∷ rest)
        (λ parts. IsTrue (has_numbers parts.0) × (bytes.now ≡ event_text parts.0 ++ 32 ∷ parts.1.now)) }
{
    let (name, rest) = word(bytes, b' ')?;
    let verb = parse_verb(name)?;
    numbers(verb, rest)
}

/// Parses a verb.
fn parse_verb(word: &[u8]) -> Option<Verb>
    ensures found { IfSome result (λ verb. word.now ≡ verb_text verb) }
    ensures none { IfNone result ((verb : Verb) → word.now ≢ verb_text verb) }
{
    match word {
        b"claim" => Some(Verb::Claim),
        b"look" => Some(Verb::Look),
        b"drain" => Some(Verb::Drain),
        b"complete" => Some(Verb::Complete),
        b"settle" => Some(Verb::Settle),
        b"poll" => Some(Verb::Poll),
        b"copy" => Some(Verb::Copy),
        _ => None,
    }
}

/// Parses the numbers of an event with this verb, each before a space. Returns the event with the
/// bytes after.
fn numbers(verb: Verb, bytes: &[u8]) -> Option<(Event, &[u8])>
    ensures { MatchOption result
        ((event : Event) (rest : List ℕ) → verb_of event ≡ verb → IsTrue (has_numbers event) → bytes.now ≢ numbers_then event rest)
        (λ parts. (verb_of parts.0 ≡ verb) × IsTrue (has_numbers parts.0) × (bytes.now ≡ numbers_then parts.0 parts.1.now)) }
{
    match verb {
        Verb::Poll => Some((Event::Poll, bytes)),
        Verb::Claim => {
            let (region, rest) = number_to(bytes, b' ')?;
            Some((Event::Claim(region), rest))
        }
        Verb::Look => {
            let (region, rest) = number_to(bytes, b' ')?;
            Some((Event::Look(region), rest))
        }
        Verb::Complete => {
            let (destination, rest) = number_to(bytes, b' ')?;
            Some((Event::Complete(destination), rest))
        }
        Verb::Settle => {
            let (destination, rest) = number_to(bytes, b' ')?;
            Some((Event::Settle(destination), rest))
        }
        Verb::Drain => {
            let ((destination, source), rest) = two_numbers(bytes)?;
            Some((Event::Drain(destination, source), rest))
        }
        Verb::Copy => {
            let ((destination, words), rest) = two_numbers(bytes)?;
            Some((Event::Copy(destination, words), rest))
        }
    }
}

/// Parses two numbers, each before a space.
fn two_numbers(bytes: &[u8]) -> Option<((u32, u32), &[u8])>
    ensures { MatchOption result
        ((m n : ℕ) (rest : List ℕ) → m < 2 ^ 32 → n < 2 ^ 32 → bytes.now ≢ decimal m ++ (32 ∷ (decimal n ++ 32 ∷ rest)))
        (λ parts. (parts.0.0 < 2 ^ 32) × (parts.0.1 < 2 ^ 32) × (bytes.now ≡ decimal parts.0.0 ++ (32 ∷ (decimal parts.0.1 ++ 32 ∷ parts.1.now)))) }
{
    let (first, rest) = number_to(bytes, b' ')?;
    let (second, rest) = number_to(rest, b' ')?;
    Some(((first, second), rest))
}
