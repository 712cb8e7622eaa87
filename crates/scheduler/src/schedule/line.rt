use crate::event::Event;
use crate::reply::Reply;

/// One line of a schedule: the worker, the event and the reply, which is `None` if it is left open.
#[derive(Clone, Copy, Debug, PartialEq, Eq)]
pub struct Line {
    pub worker: u32,
    pub event: Event,
    pub reply: Option<Reply>,
}
