//! The description of a heap.
ghost use Rattle.std.specs.Prelude.{◌≡◌, ◌+◌, ◌*◌, ◌/◌, ◌≤◌, ◌≢◌, IfOk, OnOk};
ghost use Rattle.heap_maker.specs.Wanted.{live_words_wanted};

use crate::error::GenerationError;
use crate::limits::Limits;
use crate::room::Room;
use heap_image::Version;
use heap_image::limits::MIN_REGION_LOG;

/// The heap that [`generate`](crate::generate) is to make.
#[derive(Debug, Clone, Copy, PartialEq, Eq)]
pub struct Wanted {
    /// The number of words: at least 1, at most what the version allows, and a multiple of the words of a region.
    pub words: u64,
    /// The base-2 logarithm of the number of words of a region: at least 3, and at most what the version allows.
    pub region_log: u32,
    /// The percentage of words that belong to live objects: 0 to 100.
    pub live_percent: u32,
    /// The percentage of references among the words of an object, its header not counted: 0 to 100.
    pub reference_percent: u32,
    /// The version of the image, which sets the limits.
    pub version: Version,
    /// How many dead words the dense prefix may keep.
    pub allowance: u64,
    /// The seed of the random numbers.
    pub seed: u64,
}

impl Wanted {
    /// Checks the sizes against the limits of the version.
    pub(crate) fn limits(&self) -> Result<Limits, GenerationError>
        ensures version { IfOk result (λ limits. limits.version ≡ self.now.version) }
        ensures log { IfOk result (λ limits. limits.region_log ≡ self.now.region_log) }
        ensures words { IfOk result (λ limits. limits.words ≡ self.now.words) }
        ensures no_memory { result ≢ Err GenerationError.Memory }
        ensures no_defect { result ≢ Err GenerationError.Defect }
    {
        let (version, words, region_log) = (self.version, self.words, self.region_log);
        let most = version.max_region_log();
        if region_log < MIN_REGION_LOG || region_log > most {
            return Err(GenerationError::RegionLog { region_log, most });
        }
        let most = version.max_words();
        if words == 0 || words > most {
            return Err(GenerationError::Words { words, most });
        }
        let region_words = 1u64 << region_log;
        if words % region_words != 0 {
            return Err(GenerationError::Uneven {
                words,
                region_words,
            });
        }
        let regions = words / region_words;
        let most = version.max_regions();
        if regions > most {
            return Err(GenerationError::Regions {
                words,
                regions,
                most,
            });
        }
        Ok(Limits {
            version,
            region_log,
            regions,
            words,
        })
    }

    /// Divides the words into those of live and of dead objects.
    pub(crate) fn room(&self, limits: Limits) -> Result<Room, GenerationError>
        requires { limits.words ≡ self.now.words }
        ensures live { IfOk result (λ room. room.live ≡ live_words_wanted self.now) }
        ensures all { IfOk result (λ room. room.live + room.dead ≡ limits.words) }
        ensures percent { OnOk result (self.now.reference_percent ≤ 100) }
        ensures no_memory { result ≢ Err GenerationError.Memory }
        ensures no_defect { result ≢ Err GenerationError.Defect }
    {
        if self.live_percent > 100 {
            return Err(GenerationError::Percent(self.live_percent));
        }
        if self.reference_percent > 100 {
            return Err(GenerationError::Percent(self.reference_percent));
        }
        let live = limits.words * u64::from(self.live_percent) / 100;
        Ok(Room {
            live,
            dead: limits.words - live,
        })
    }
}
