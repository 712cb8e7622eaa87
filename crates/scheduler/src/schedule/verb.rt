/// The kind of an event, without its numbers.
#[derive(Clone, Copy)]
pub enum Verb {
    Claim,
    Look,
    Drain,
    Complete,
    Settle,
    Poll,
    Copy,
}
