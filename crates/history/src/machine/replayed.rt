use heap_image::Image;
use scheduler::Schedule;

/// The result of a replay.
#[derive(Drop)]
pub struct Replayed {
    /// The schedule with the word machine's reply in each line.
    pub lines: Schedule,
    /// How the replay ended.
    pub ended: End,
}

/// How a replay ends.
#[derive(Drop)]
pub enum End {
    /// All regions to be filled are settled; this is the compacted image.
    Finished(Image),
    /// Some region to be filled isn't settled.
    Open,
}
