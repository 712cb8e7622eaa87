//! Versions by their numbers.
ghost use Rattle.std.specs.Prelude.{◌≡◌, option_map};
ghost use Rattle.heap_commands.specs.Versions.{version_numbered};

use heap_image::Version;

/// The version of an image that the command line requests by this number: 1, 2 or 3.
pub(crate) fn version_numbered(number: u32) -> Version
    ensures { result ≡ version_numbered number }
{
    match number {
        1 => Version::One,
        3 => Version::Three,
        _ => Version::Two,
    }
}

/// The version of an image that the command line requests by this number, if it requests one.
pub(crate) fn requested_version(number: Option<u32>) -> Option<Version>
    ensures { result ≡ option_map version_numbered number }
{
    match number {
        Some(number) => Some(version_numbered(number)),
        None => None,
    }
}
