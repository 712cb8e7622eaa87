//! An image and a schedule that a command reads.
use crate::files::two_different_inputs;
use crate::opened::Opened;
use command_line::Shape;
use command_support::{FileWord, Role, Trouble};
use std::rt::Files;

/// An image and a schedule, as the command line names them.
#[derive(Clone, Copy)]
pub struct ImageAndSchedule<'a> {
    pub image: &'a str,
    /// What the image is read with in place of what is in its head.
    pub shape: Shape,
    pub schedule: &'a str,
}

impl<'a> ImageAndSchedule<'a> {
    /// Opens both files, which must not be one.
    pub fn open<H: Files + AllocGlobal>(self, host: &H) -> Result<Opened<'a, H::File>, Trouble> {
        let image = FileWord::new(Role::Image, self.image);
        let schedule = FileWord::new(Role::Schedule, self.schedule);
        let (image, schedule) = two_different_inputs(host, image, schedule)?;
        Ok(Opened {
            image: image.with_shape(self.shape),
            schedule,
        })
    }
}
