//! The options of an import.
ghost use Rattle.std.specs.Prelude.{◌≡◌, ◌≤◌, ◌≢◌, true, IfOk};
ghost use Rattle.std.specs.Option.{ForSome};
ghost use Rattle.object_heap.specs.Version.{Allows, IsChosen, has_roots};
ghost use Rattle.heap_dump.specs.Requested.{requested_log};

use dump_objects::{Followed, Gaps};
use dump_records::ImportError;
use heap_image::limits::MIN_REGION_LOG;
use heap_image::{Fault, Version};

/// The default region log: with regions of this size, an image of version 2 of any allowed number of words has few enough
/// regions.
const USUAL_REGION_LOG: u32 = 9;

/// The options of [`import`](crate::import).
#[derive(Clone, Copy)]
pub struct Options {
    /// The base-2 logarithm of the number of words of a region: at least 3, and at most what the version allows. None is
    /// 9, which suits every image of version 2, and images of version 3 of up to 2^29 words.
    pub region_log: Option<u32>,
    /// How many dead words the dense prefix of the image may keep.
    pub allowance: u64,
    /// Whether only the reachable objects are kept, without gaps.
    pub live_only: bool,
    /// Which references are followed. The others become null, unless what they lead to is reached without them.
    pub followed: Followed,
    /// Whether objects that touch in the machine touch in the image: gaps that may be padding are left out.
    pub packs: bool,
    /// The version of the image, 2 or 3. None is version 2 where it allows the heap, else version 3.
    pub version: Option<Version>,
}

/// The regions and the version that are requested.
#[derive(Clone, Copy)]
pub(crate) struct Regions {
    /// The base-2 logarithm of the number of words of a region.
    pub(crate) log: u32,
    /// The version of the image, if one is requested.
    pub(crate) version: Option<Version>,
    ghost low: { 3 ≤ log },
    ghost high: { log ≤ 20 },
    ghost rooted: { ForSome version (λ version. has_roots version ≡ true) },
}

impl Options {
    /// Which gaps are kept, unless only reachable objects are.
    pub(crate) fn gaps(&self) -> Gaps {
        if self.packs { Gaps::Packed } else { Gaps::Kept }
    }

    /// The requested size of regions, and the version. A region log that the version doesn't allow is an error, and so is
    /// a version without roots.
    pub(crate) fn regions(&self) -> Result<Regions, ImportError>
        ensures requested { IfOk result (λ regions. regions.log ≡ requested_log self.now) }
        ensures version { IfOk result (λ regions. regions.version ≡ self.now.version) }
        ensures no_device { result ≢ Err ImportError.Input }
    {
        let version = self.version;
        let largest = version.unwrap_or(Version::Three);
        if !largest.has_roots() {
            return Err(ImportError::NoRoots);
        }
        let region_log = self.region_log.unwrap_or(USUAL_REGION_LOG);
        let most = largest.max_region_log();
        if region_log < MIN_REGION_LOG || region_log > most {
            return Err(ImportError::RegionLog { region_log, most });
        }
        Ok(Regions {
            log: region_log,
            version,
        })
    }
}

impl Regions {
    /// The most words that an image with such regions may have.
    pub(crate) fn most_words(self) -> u64 {
        most_words(self.version.unwrap_or(Version::Three), self.log)
    }

    /// The most words that an image with such regions may have, gaps included, if its objects have `words` words.
    ///
    /// An image that is too large for version 2 has no more words in gaps than in objects, unless a version is requested:
    /// a few objects far from one another take no more memory than is in proportion to their dump.
    pub(crate) fn most_words_with_gaps(self, words: u64) -> u64 {
        let most = self.most_words();
        match self.version {
            Some(_) => most,
            None => most.min(
                words
                    .saturating_mul(2)
                    .max(most_words(Version::Two, self.log)),
            ),
        }
    }

    /// The version of an image with such regions and this number of words. It is an error if the requested version doesn't
    /// allow them.
    pub(crate) fn version_for(self, words: u64) -> Result<Version, ImportError>
        ensures chosen { IfOk result (λ version. IsChosen self.version self.log words version) }
        ensures allowed { IfOk result (λ version. Allows version self.log words) }
        ensures rooted { IfOk result (λ version. has_roots version ≡ true) }
        ensures no_device { result ≢ Err ImportError.Input }
    {
        let version = match self.version {
            Some(requested) => requested,
            None => Version::for_roots(self.log, words),
        };
        if version.allows(self.log, words) {
            Ok(version)
        } else {
            Err(ImportError::NoHeap(Fault::Length))
        }
    }
}

/// The most words that an image of this version with regions of `2 ^ region_log` words may have.
fn most_words(version: Version, region_log: u32) -> u64
    requires { region_log ≤ 20 }
{
    version.max_words().min(version.max_regions() << region_log)
}
