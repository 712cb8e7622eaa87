//! What several commands share.

pub(crate) mod live_share;
pub(crate) mod versions;
