//! What files of the command line have, by their first bytes.
ghost use Rattle.std.specs.Prelude.{◌≡◌};
ghost use Rattle.command_support.specs.Hints.{content_of};

/// What a file has.
#[derive(Clone, Copy, PartialEq, Eq)]
pub enum Content {
    /// A heap image, of either version.
    Image,
    /// The heap dump of a Java virtual machine.
    Dump,
    /// A heap dump of Android.
    AndroidDump,
    /// A schedule.
    Schedule,
    /// A heap text.
    Text,
    /// Something that gzip has packed.
    Packed,
    /// A picture (PNG).
    Picture,
}

impl Content {
    /// What a file has that begins with these bytes, or `None` if nothing of these begins so.
    pub fn of(front: &[u8]) -> Option<Content>
        ensures { result ≡ content_of front.now }
    {
        if front.starts_with(b"PCHEAP01")
            || front.starts_with(b"PCHEAP02")
            || front.starts_with(b"PCHEAP03")
        {
            Some(Content::Image)
        } else if front.starts_with(b"JAVA PROFILE 1.0.3") {
            Some(Content::AndroidDump)
        } else if front.starts_with(b"JAVA PROFILE ") {
            Some(Content::Dump)
        } else if front.starts_with(b"schedule ") {
            Some(Content::Schedule)
        } else if front.starts_with(b"heap version ") {
            Some(Content::Text)
        } else if front.starts_with(b"\x1f\x8b") {
            Some(Content::Packed)
        } else if front.starts_with(b"\x89PNG") {
            Some(Content::Picture)
        } else {
            None
        }
    }
}
