use crate::event::Event;
use crate::reply::Reply;

/// One call in a history: the worker, the event and the reply.
#[derive(Clone, Copy, Debug, PartialEq, Eq)]
pub struct Entry {
    pub worker: u32,
    pub event: Event,
    pub reply: Reply,
}
