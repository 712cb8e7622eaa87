//! The front: the first 32 bytes of an image's text.
ghost use Rattle.std.specs.Prelude.{◌≡◌, ◌≢◌, ◌≤◌, ◌^◌, ◌+◌, ◌*◌, ◌||◌, false, nat_lt, length, take, is_some, Some, IfOk, OnOk, IfErr, IfNone, IfSome, option_map};
ghost use Rattle.std.specs.Str.{bytes_eq};
ghost use Rattle.heap_image.specs.Front.{Fits, HasAllowedRegions, IsOfBytes, bytes_of};
ghost use Rattle.heap_image.specs.ImageText.{front_faults, first_some, encoded_version};
ghost use Rattle.object_heap.specs.Version.{magic, Allows, max_region_log};
ghost use Rattle.object_heap.specs.HeapImage.{IsWithinLimits};
ghost use Rattle.heap_image.specs.LengthCause.{length_causes, first_length_cause};
ghost use Rattle.heap_image.specs.Refusals.{IsFaultOfFront};
ghost use Rattle.image_streams.specs.Body.{body_words};

pub(crate) mod length_cause;

use crate::limits::MIN_REGION_LOG;
use crate::{Fault, LengthCause, Version};
use byteorder::{ByteOrder, LittleEndian};
use image_streams::{BodySize, Extent, u32_at, u64_at};

/// The number of bytes of a front.
pub const FRONT_BYTES: usize = 32;

/// The fields of the first 32 bytes of a text.
#[derive(Clone, Copy)]
pub struct Front {
    pub version: Version,
    /// The logarithm, to base 2, of the number of words of a region.
    pub region_log: u32,
    /// The number of live addresses or, if the image has roots, of roots.
    pub count: u32,
    /// The number of words of the heap.
    pub words: u64,
    /// The largest number of dead words that the dense prefix may keep.
    pub allowance: u64,
}

impl Front {
    /// Parses a front, or returns its first fault.
    pub(crate) fn parse(bytes: &[u8]) -> Result<Front, Fault>
        requires { length bytes.now ≡ 32 }
        ensures bytes { IfOk result (λ parsed. bytes.now ≡ bytes_of parsed) }
        ensures fits { IfOk result Fits }
        ensures fault { IfErr result (IsFaultOfFront bytes.now) }
    {
        let parsed = Front::parse_unvalidated(bytes)?;
        match parsed.length_cause() {
            None => Ok(parsed),
            Some(_) => Err(Fault::Length),
        }
    }

    /// Parses a front whose sizes may be outside the limits of the format. The faults are a wrong magic and a wrong
    /// region log.
    pub(crate) fn parse_unvalidated(bytes: &[u8]) -> Result<Front, Fault>
        requires { length bytes.now ≡ 32 }
        ensures fields { IfOk result (IsOfBytes bytes.now) }
        ensures allowed { IfOk result HasAllowedRegions }
        // The only fault that such a front can have is 4.
        ensures length { IfOk result (λ parsed. first_some (front_faults bytes.now)
            ≡ option_map (λ cause. Fault.Length) (first_length_cause bytes.now)) }
        ensures fault { IfErr result (IsFaultOfFront bytes.now) }
        ensures not_length { IfErr result (λ fault. fault ≢ Fault.Length) }
    {
        let Some(version) = named_version(bytes) else {
            return Err(Fault::Magic);
        };
        let region_log = u32_at(bytes, 8);
        let parsed = Front {
            version,
            region_log,
            count: u32_at(bytes, 12),
            words: u64_at(bytes, 16),
            allowance: u64_at(bytes, 24),
        };
        if parsed.has_forbidden_regions() {
            return Err(Fault::RegionLog);
        }
        Ok(parsed)
    }

    /// Checks that the version allows these fields. The faults are a wrong region log and a wrong length.
    pub(crate) fn check(self) -> Result<(), Fault>
        ensures fits { OnOk result (Fits self) }
        ensures fault { IfErr result (λ fault. first_some (front_faults (bytes_of self)) ≡ Some fault) }
    {
        if self.has_forbidden_regions() {
            return Err(Fault::RegionLog);
        }
        match self.length_cause() {
            None => Ok(()),
            Some(_) => Err(Fault::Length),
        }
    }

    /// Whether the version forbids regions of this size.
    fn has_forbidden_regions(&self) -> bool
        ensures forbidden { result ≡ (nat_lt self.now.region_log 3 || nat_lt (max_region_log self.now.version) self.now.region_log) }
        ensures allowed { result ≡ false → HasAllowedRegions self.now }
    {
        self.region_log < MIN_REGION_LOG || self.region_log > self.version.max_region_log()
    }

    /// The size of the body that follows this front.
    pub(crate) fn body_size(&self) -> BodySize
        requires { IsWithinLimits self.now.region_log self.now.words self.now.count }
        ensures region_log { result.region_log ≡ self.now.region_log }
        ensures regions { result.regions * 2 ^ self.now.region_log ≡ self.now.words }
        ensures numbers { result.numbers ≡ self.now.count }
    {
        BodySize {
            region_log: self.region_log,
            regions: (self.words >> self.region_log) as usize,
            numbers: self.count as usize,
        }
    }

    /// The number of bytes of the text, front and body.
    pub(crate) fn text_len(&self) -> usize
        requires { IsWithinLimits self.now.region_log self.now.words self.now.count }
        ensures { result ≡ 32 + 8 * self.now.words + 8 * self.now.count }
    {
        FRONT_BYTES + 8 * self.words as usize + 8 * self.count as usize
    }

    /// Encodes the front. Its fields needn't be within the limits of the format.
    pub fn to_bytes(self) -> [u8; FRONT_BYTES]
        ensures { result ≡ bytes_of self }
    {
        let mut bytes = [0; FRONT_BYTES];
        bytes[..8].copy_from_slice(&self.version.magic());
        LittleEndian::write_u32(&mut bytes[8..12], self.region_log);
        LittleEndian::write_u32(&mut bytes[12..16], self.count);
        LittleEndian::write_u64(&mut bytes[16..24], self.words);
        LittleEndian::write_u64(&mut bytes[24..32], self.allowance);
        bytes
    }

    /// The first condition of fault 4 that holds, if one does.
    #[tactic(auto, using(crate::proofs::Lemmas::Parts::place_by_mask))]
    pub(crate) fn length_cause(&self) -> Option<LengthCause>
        requires { HasAllowedRegions self.now }
        ensures first { result ≡ first_some (length_causes self.now.version self.now.region_log self.now.count self.now.words) }
        ensures limits { IfNone result (IsWithinLimits self.now.region_log self.now.words self.now.count) }
        ensures allowed { IfNone result (Allows self.now.version self.now.region_log self.now.words) }
    {
        let max_words = self.version.max_words();
        let max_regions = self.version.max_regions();
        if self.words == 0 {
            return Some(LengthCause::NoWords);
        }
        if self.words & ((1 << self.region_log) - 1) != 0 {
            return Some(LengthCause::PartialRegion);
        }
        if self.words > max_words {
            return Some(LengthCause::TooManyWords(max_words));
        }
        if self.words >> self.region_log > max_regions {
            return Some(LengthCause::TooManyRegions(max_regions));
        }
        if u64::from(self.count) > self.words {
            return Some(LengthCause::CountAboveWords);
        }
        None
    }
}

/// The extent of the body that follows this front of a file, if the front is valid.
pub fn extent_after_front(front: &[u8; FRONT_BYTES]) -> Option<Extent>
    ensures log { IfSome result (λ extent. extent.size.region_log ≤ 20) }
    ensures few { IfSome result (λ extent. body_words extent.size ≤ 137438953472) }
{
    let front = Front::parse(front).ok()?;
    Some(Extent {
        at: FRONT_BYTES as u64,
        size: front.body_size(),
    })
}

/// The version that the magic of a front names.
fn named_version(bytes: &[u8]) -> Option<Version>
    requires { 8 ≤ length bytes.now }
    ensures version { IfSome result (λ version. version ≡ encoded_version bytes.now) }
    ensures known { is_some result ≡ bytes_eq (take 8 bytes.now) (magic (encoded_version bytes.now)) }
{
    if has_magic(bytes, Version::Three) {
        return Some(Version::Three);
    }
    if has_magic(bytes, Version::Two) {
        return Some(Version::Two);
    }
    if has_magic(bytes, Version::One) {
        return Some(Version::One);
    }
    None
}

/// Whether a front begins with the magic of this version.
fn has_magic(bytes: &[u8], version: Version) -> bool
    requires { 8 ≤ length bytes.now }
    ensures { result ≡ bytes_eq (take 8 bytes.now) (magic version) }
{
    let magic = version.magic();
    bytes[..8] == magic[..]
}
