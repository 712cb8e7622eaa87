/// The numbers of one worker's claims and completions of a region.
#[derive(Clone, Copy)]
pub struct Tally {
    /// Granted claims.
    pub claims: u32,
    pub completions: u32,
}
