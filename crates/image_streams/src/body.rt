//! The body: the part of an image's text after its front.
ghost use Rattle.std.specs.Prelude.{◌≡◌, ◌<◌, ◌≤◌, ◌*◌, ◌^◌, ◌||◌, ◌+◌, ℕ, All, List, length, IfOk, IfErr, IfSome, Err};
ghost use Rattle.std.specs.List.{concat};
ghost use Rattle.std.specs.Io.KnownBytes.{Consumes};
ghost use Rattle.image_streams.specs.Body.{IsBody, body_words, IsOfBody};
ghost use Rattle.image_streams.specs.Device.{is_io};
ghost use Rattle.image_streams.specs.Incoming.{FallsShort};
ghost use Rattle.image_streams.specs.Reading.{AreRegions, Draws, IsDue, Reads, ReadsBody};
ghost use Rattle.image_streams.specs.RegionSource.{HasRegions, HasRegionsFor};

use crate::numbers::incoming::Incoming;
use crate::region_source::RegionSource;
use crate::{BodySize, Fault, Intake};
use raw_region::Region;
use std::alloc::Global;

/// The most bytes that are requested at a time.
const BUFFER_BYTES: usize = 16_384;

/// The part of an image after its front: the regions with the words, and the numbers after them, live addresses or
/// roots.
#[derive(Drop)]
pub struct Body {
    pub regions: Vec<Region>,
    pub tail: Vec<u64>,
}

impl Body {
    /// Reads a body of this size into regions of this source.
    pub(crate) fn read<R: Intake>(
        source: &RegionSource<'_>,
        incoming: &mut Incoming<'_>,
        reader: &mut R,
        size: BodySize,
    ) -> Result<Body, Fault>
        requires source { HasRegionsFor source.now size }
        requires due { IsDue incoming.old (body_words size) }
        ensures body { IfOk result (ReadsBody R.left size incoming.old incoming.new reader.old reader.new) }
        ensures device { Draws IsOfBody R.left R.has_failed incoming.old reader.old reader.new result }
    {
        let regions = read_regions(source, incoming, reader, size)?;
        let mut tail = vec![in source.alloc; 0u64; size.numbers]?;
        incoming.read(reader, tail.as_mut_slice())?;
        Ok(Body { regions, tail })
    }
}

/// Reads a body of this size, and no byte after it. It allocates no memory before a byte has arrived.
pub fn read_body_in_order<R: Intake>(
    alloc: Global,
    reader: &mut R,
    size: BodySize,
) -> Result<Body, Fault>
    requires log { size.region_log ≤ 20 }
    requires some { 0 < body_words size }
    requires few { body_words size ≤ 137438953472 }
    ensures body { IfOk result (IsBody size (R.left reader.old) (R.left reader.new)) }
    ensures truncated { result ≡ Err Fault.TruncatedBody → FallsShort (R.left reader.old) (R.left reader.new) (body_words size) }
    ensures memory { result ≡ Err Fault.Memory → IfSome (R.left reader.old) (λ rest. 0 < length rest) }
    ensures fault { IfErr result IsOfBody }
    ensures lost { (came : List ℕ) × Consumes (R.left reader.old) (R.left reader.new) came }
    ensures failed { R.has_failed reader.new ≡ (is_io result || R.has_failed reader.old) }
{
    let mut buffer = [0; BUFFER_BYTES];
    let mut incoming = Incoming::new(&mut buffer, size.words());
    incoming.top_up(reader)?;
    let source = RegionSource::new(alloc, None);
    Body::read(&source, &mut incoming, reader, size)
}

/// Reads the words of the regions of a body of this size into regions of this source. If each is a block of its own, it
/// takes memory as the words come: for at most one region more than have come, and for twice as many blocks.
fn read_regions<R: Intake>(
    source: &RegionSource<'_>,
    incoming: &mut Incoming<'_>,
    reader: &mut R,
    size: BodySize,
) -> Result<Vec<Region>, Fault>
    requires source { HasRegionsFor source.now size }
    requires due { IsDue incoming.old (size.regions * 2 ^ size.region_log) }
    ensures words { IfOk result
        (λ regions. Reads R.left incoming.old incoming.new reader.old reader.new (concat regions.items)) }
    ensures regions { IfOk result (λ regions. AreRegions (2 ^ size.region_log) size.regions regions.items) }
    ensures device { Draws IsOfBody R.left R.has_failed incoming.old reader.old reader.new result }
{
    let mut regions = source.list(size.regions)?;
    if size.regions == 0 {
        return Ok(regions);
    }
    let mut words = vec![in source.alloc; 0u64; 1 << size.region_log]?;
    for r in 0..size.regions {
        let region = read_region(source, incoming, reader, r, words.as_mut_slice())?;
        regions.push(region)?;
    }
    Ok(regions)
}

/// Reads the region with this number: from the buffered bytes if they have all of its words, else by way of `words`, which
/// has its size.
fn read_region<R: Intake>(
    source: &RegionSource<'_>,
    incoming: &mut Incoming<'_>,
    reader: &mut R,
    index: usize,
    words: &mut [u64],
) -> Result<Region, Fault>
    requires some { 1 ≤ length words.old }
    requires few { length words.old ≤ 1048576 }
    requires source { HasRegions source.now (length words.old) (index + 1) }
    requires due { IsDue incoming.old (length words.old) }
    ensures words { IfOk result (Reads R.left incoming.old incoming.new reader.old reader.new) }
    ensures length { IfOk result (λ region. length region ≡ length words.old) }
    ensures fit { IfOk result (λ region. All (λ w. w < 2 ^ 64) region) }
    ensures device { Draws IsOfBody R.left R.has_failed incoming.old reader.old reader.new result }
{
    incoming.top_up(reader)?;
    if !incoming.holds(words.len()) {
        incoming.read(reader, words)?;
        return source.region(index, words);
    }
    let region = source.region_of_bytes(index, incoming.next_bytes(words.len()), words.len())?;
    incoming.skip(words.len());
    Ok(region)
}
