//! The text of schedules.

mod event_text;
mod line_text;
mod reading;
mod reply_text;
pub(crate) mod schedule_device;
pub(crate) mod schedule_reading;
pub(crate) mod schedule_text;
mod window;
