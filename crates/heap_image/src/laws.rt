//! Laws of images and their texts, for callers' proofs, which have no other way to them. The functions do nothing: each one's
//! contract is a law.
ghost use Rattle.std.specs.Prelude.{◌≡◌, ◌*◌, ◌⊎◌, ℕ, List, true, false, [], Option, Some, None, Result, Ok, Err, IfOk, IfErr, length};
ghost use Rattle.image_streams.specs.Device.{is_io};
ghost use Rattle.heap_image.specs.Refusals.{IsReason};
ghost use Rattle.object_heap.specs.Version.{has_roots, magic};
ghost use Rattle.image_streams.specs.declared.fault.Fault.{Fault};
ghost use Rattle.image_streams.specs.declared.fault.Fault.TheVariants.{Memory};
ghost use Rattle.object_heap.specs.declared.version.Version.{Version};
ghost use Rattle.object_heap.specs.declared.version.Version.TheVariants.{Two};
ghost use Rattle.object_heap.specs.HeapImage.{HeapImage, IsValid, heap_words, image_of, reachable, versioned_image_of};
ghost use Rattle.heap_image.specs.ImageText.{text, version_of_magic, encoded_words, with_tail, from_tail, first_some, live_list_faults, FaultlessIsText, TextIsFaultless};
ghost use Rattle.object_heap.specs.ObjectFaults.{misplaced_index, unsound_header, dangling, beyond};
ghost use Rattle.image_streams.specs.Numbers.{numbers};
ghost use Rattle.heap_image.specs.Reading.{HasFittingNumbers, IsRead};

use crate::image::Image;
use object_heap::{objects_without_faults, reachable_is_the_least_closed};

/// Every image is valid.
pub fn image_is_valid(image: &Image)
    ensures { IsValid image.now }
{
    image.len();
}

/// Bytes without a fault are the text of the valid image that they encode.
pub fn faultless_is_text()
    ensures { FaultlessIsText }
{
    objects_without_faults();
}

/// The text of a valid image has no fault, and encodes that image.
pub fn text_is_faultless()
    ensures { TextIsFaultless }
{}

/// Two valid images with the same text are equal.
pub fn one_text()
    ensures { (image other : HeapImage) → IsValid image → IsValid other → text image ≡ text other
        → image ≡ other }
{}

/// In an image with roots the live list is always in order. If all headers are sound, each reference that is neither
/// null nor to a live object leads out of the heap.
pub fn faults_of_roots()
    ensures order { (image : HeapImage) (roots : List ℕ) → misplaced_index (heap_words image) (reachable image roots) ≡ None }
    ensures references { (image : HeapImage) → unsound_header (from_tail Two image) ≡ None
        → dangling (from_tail Two image) ≡ beyond (from_tail Two image) }
{
    reachable_is_the_least_closed();
}

/// Regions and roots within the limits of a version with roots, in which [`mark_from_roots`](crate::mark_from_roots)
/// finds no fault, are the parts of a valid image with the live objects that it returns, whatever the allowance.
pub fn marked_parts_are_valid()
    ensures { (version : Version) (log allowance : ℕ) (blocks : List (List ℕ)) (roots live : List ℕ)
        → has_roots version ≡ true
        → HasFittingNumbers version (image_of log allowance blocks roots)
        → first_some (live_list_faults (from_tail Two (image_of log 0 blocks roots))) ≡ None
        → live ≡ reachable (image_of log 0 blocks []) roots
        → IsValid (versioned_image_of version log allowance blocks live (Some roots)) }
{
    objects_without_faults();
}

/// What a text tells of its image: the version and the number of words; and that all numbers of a valid image fit.
pub fn text_tells_its_size()
    ensures version { (version : Version) → version_of_magic (magic version) ≡ version }
    ensures numbers { (xs : List ℕ) → length (numbers xs) ≡ 8 * length xs }
    ensures fitting { (image : HeapImage) → IsValid image → HasFittingNumbers image.version (with_tail image) }
    ensures words { (image : HeapImage) → IsValid image → encoded_words (text image) ≡ heap_words image }
{}

/// What was read of the text of a valid image is that image, unless memory ran out.
pub fn text_is_read_back()
    ensures { (bytes : List ℕ) (answer : Result HeapImage Fault) (left : Option (List ℕ))
        → IfOk answer (λ i. IsRead i (Some bytes) left) → IfErr answer (IsReason bytes) → false ≡ is_io answer
        → (image : HeapImage) → IsValid image → bytes ≡ text image → (answer ≡ Ok image) ⊎ (answer ≡ Err Memory) }
{}
