use command_support::Watched;

/// An image and a schedule, open.
#[derive(Drop)]
pub struct Opened<'a, F: Drop> {
    pub image: Watched<'a, F>,
    pub schedule: Watched<'a, F>,
}
