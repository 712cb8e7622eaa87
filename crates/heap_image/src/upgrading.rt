//! Converts images to later versions.
ghost use Rattle.heap_image.specs.Upgrade.{upgraded, upgraded_to, in_version_three};
ghost use Rattle.object_heap.specs.Version.{has_roots};
ghost use Rattle.std.specs.Prelude.{false, ◌≡◌, ◌<◌, ◌+◌, ◌^◌, None, All, true, is_some, map, IfOk, IfErr};

use crate::{Fault, Image, ImageParts, Version};
use object_heap::live_objects_are_reached;
use std::alloc::{AllocError, Global};

/// Converts an image to version 2, with a root to each live object, ascending. The live objects stay the same. An image
/// with roots is returned as it is, and so is, with fault 11, any image if memory runs out.
pub fn upgrade(alloc: Global, image: Image) -> Result<Image, (Image, Fault)>
    ensures upgraded { IfOk result (λ new. new ≡ upgraded image) }
    ensures refused { IfErr result (λ refused. (refused.0 ≡ image) × (refused.1 ≡ Fault.Memory)) }
{
    if image.version().has_roots() {
        return Ok(image);
    }
    match roots_to(alloc, image.live()) {
        Ok(roots) => Ok(with_roots(image, roots)),
        Err(_) => Err((image, Fault::Memory)),
    }
}

/// Converts an image to this version, with a root to each live object if it has none and the version has roots. All else
/// stays the same. An image of a later version is returned as it is, and so is, with fault 11, any image if memory runs
/// out.
pub fn upgrade_to(alloc: Global, image: Image, version: Version) -> Result<Image, (Image, Fault)>
    ensures upgraded { IfOk result (λ new. new ≡ upgraded_to version image) }
    ensures refused { IfErr result (λ refused. (refused.0 ≡ image) × (refused.1 ≡ Fault.Memory)) }
{
    match version {
        Version::One => Ok(image),
        Version::Two => upgrade(alloc, image),
        Version::Three => match upgrade(alloc, image) {
            Ok(image) => Ok(in_version_three(image)),
            Err(refused) => Err(refused),
        },
    }
}

/// Sets the version of an image with roots to 3.
fn in_version_three(image: Image) -> Image
    requires { is_some image.roots ≡ true }
    ensures { result ≡ in_version_three image }
{
    let parts = image.into_parts();
    let parts = ImageParts {
        version: Version::Three,
        ..parts
    };
    parts.into_image()
}

/// Returns a root to each of these objects.
fn roots_to(alloc: Global, live: &[u64]) -> Result<Vec<u64>, AllocError>
    requires { All (λ a. a + 1 < 2 ^ 64) live.now }
    ensures { IfOk result (λ roots. roots.items ≡ map (λ a. a + 1) live.now) }
{
    let mut roots = Vec::with_capacity(alloc, live.len())?;
    for a in live {
        roots.push(*a + 1)?;
    }
    Ok(roots)
}

/// Gives an image of version 1 these roots, one to each live object.
fn with_roots(image: Image, roots: Vec<u64>) -> Image
    requires none { image.roots ≡ None }
    requires listed { has_roots image.version ≡ false }
    requires roots { roots.items ≡ map (λ a. a + 1) image.live }
    ensures { result ≡ upgraded image }
{
    live_objects_are_reached();
    let parts = image.into_parts();
    let parts = ImageParts {
        version: Version::Two,
        roots: Some(roots),
        ..parts
    };
    parts.into_image()
}
