//! Where the live words of a heap go.
ghost use Rattle.std.specs.Prelude.{◌≡◌, ◌+◌, ◌*◌, ◌^◌, ◌<◌, ◌≤◌, ◌++◌, IfOk, OnOk, codes, decimal, flat_map, length, map, min, string_bytes};
ghost use Rattle.object_heap.specs.HeapImage.{heap_words};
ghost use Rattle.summary.specs.NewAddresses.{prefix_end};
ghost use Rattle.heap_map.specs.Bands.{band_between, band_text, bands_of, band_words, object_band, place_text, prefix_bands, region_bands, regions_band, words_above};

use crate::band::Band;
use heap_image::Image;
use std::alloc::{AllocError, Global};
use summary::Survey;
use summary::laws::region_data::regions_to_fill;

/// The largest number of bands of objects, and of regions above the dense prefix.
pub const MAX_BANDS: u32 = 64;

/// Where the live words of a heap go, in ascending order.
#[derive(Drop)]
pub struct Bands {
    pub bands: Vec<Band>,
}

impl Bands {
    /// A band for each live object if there are at most `most`; otherwise one for the dense prefix, and at most `most` for
    /// whole regions above it.
    pub fn of(alloc: Global, image: &Image, survey: &Survey, most: u32) -> Result<Bands, AllocError>
        requires same { survey.now ≡ image.now }
        requires some { 1 ≤ most }
        ensures { IfOk result (λ made. made.bands.items ≡ bands_of image.now most) }
    {
        let bands = if image.live().len() as u64 <= u64::from(most) {
            object_bands(alloc, image, survey)?
        } else {
            region_bands(alloc, image, survey, most)?
        };
        Ok(Bands { bands })
    }

    /// Writes a line for each band below a heading.
    pub(crate) fn write(&self, text: &mut String) -> Result<(), AllocError>
        ensures { OnOk result (string_bytes text.new
            ≡ string_bytes text.old ++ (codes "moves:\n" ++ flat_map band_text self.now.bands.items)) }
    {
        text.push_str("moves:\n")?;
        write_bands(text, self.bands.as_slice())
    }
}

/// The bands of the live objects.
fn object_bands(alloc: Global, image: &Image, survey: &Survey) -> Result<Vec<Band>, AllocError>
    requires { survey.now ≡ image.now }
    ensures { IfOk result (λ bands. bands.items ≡ map (object_band image.now) image.now.live) }
{
    let mut bands = Vec::new(alloc);
    for a in image.live() {
        let words = image.size_at(*a);
        let target = survey.plan().new_address(*a);
        bands.push(Band {
            from: *a,
            to: *a + words,
            words,
            target,
            stays: target == *a,
        })?;
    }
    Ok(bands)
}

/// The bands of the regions: one of the dense prefix, and at most `most` above it.
fn region_bands(
    alloc: Global,
    image: &Image,
    survey: &Survey,
    most: u32,
) -> Result<Vec<Band>, AllocError>
    requires same { survey.now ≡ image.now }
    requires some { 1 ≤ most }
    ensures { IfOk result (λ bands. bands.items ≡ region_bands image.now most) }
{
    let above = words_above(image, survey);
    let each = band_words(image, above, most);
    let mut bands = prefix_bands(alloc, survey)?;
    for i in 0..above.div_ceil(each) {
        bands.push(regions_band(survey, above, each, i))?;
    }
    Ok(bands)
}

/// The number of words above the dense prefix.
fn words_above(image: &Image, survey: &Survey) -> u64
    requires { survey.now ≡ image.now }
    ensures value { result ≡ words_above image.now }
    ensures inside { prefix_end image.now + result ≡ heap_words image.now }
    ensures few { result ≤ 68719476736 }
{
    regions_to_fill();
    image.len() - survey.plan().prefix_end()
}

/// The words of as many whole regions as make at most `most` bands of this number of words.
fn band_words(image: &Image, above: u64, most: u32) -> u64
    requires above { above ≡ words_above image.now }
    requires some { 1 ≤ most }
    ensures value { result ≡ band_words image.now most }
    ensures some { 1 ≤ result }
{
    let regions = above.div_ceil(image.region_words());
    regions.div_ceil(u64::from(most)).max(1) * image.region_words()
}

/// The band of the dense prefix, if there is one.
fn prefix_bands(alloc: Global, survey: &Survey) -> Result<Vec<Band>, AllocError>
    ensures { IfOk result (λ bands. bands.items ≡ prefix_bands survey.now) }
{
    regions_to_fill();
    let mut bands = Vec::new(alloc);
    let end = survey.plan().prefix_end();
    if end != 0 {
        bands.push(band_between(survey, 0, end))?;
    }
    Ok(bands)
}

/// The band of the i-th regions of `each` words above the dense prefix.
fn regions_band(survey: &Survey, above: u64, each: u64, i: u64) -> Band
    requires above { above ≡ words_above survey.now }
    requires inside { prefix_end survey.now + above ≡ heap_words survey.now }
    requires few { i < 2 ^ 63 }
    ensures { result ≡ regions_band survey.now each i }
{
    let start = survey.plan().prefix_end();
    let from = i.saturating_mul(each).min(above);
    let to = (i + 1).saturating_mul(each).min(above);
    band_between(survey, start + from, start + to)
}

/// The band of the live words from `from` up to `to`.
fn band_between(survey: &Survey, from: u64, to: u64) -> Band
    requires ordered { from ≤ to }
    requires inside { to ≤ heap_words survey.now }
    ensures { result ≡ band_between survey.now from to }
{
    let start = survey.plan().prefix_end();
    let target = if from < start {
        from
    } else {
        start + survey.marks().live_words(start, from)
    };
    Band {
        from,
        to,
        words: survey.marks().live_words(from, to),
        target,
        stays: to <= start,
    }
}

/// Writes a line for each band.
fn write_bands(text: &mut String, bands: &[Band]) -> Result<(), AllocError>
    ensures { OnOk result (string_bytes text.new ≡ string_bytes text.old ++ flat_map band_text bands.now) }
{
    for band in bands {
        write_band(text, *band)?;
    }
    Ok(())
}

/// Writes the line of a band.
fn write_band(text: &mut String, band: Band) -> Result<(), AllocError>
    ensures { OnOk result (string_bytes text.new ≡ string_bytes text.old ++ band_text band) }
{
    write!(text, "{} to {}: ", band.from, band.to.saturating_sub(1))?;
    write_place(text, band)
}

/// Writes how many words of a band live, and where they go.
fn write_place(text: &mut String, band: Band) -> Result<(), AllocError>
    ensures { OnOk result (string_bytes text.new ≡ string_bytes text.old ++ place_text band) }
{
    let Band {
        words,
        target,
        stays,
        ..
    } = band;
    if words == 0 {
        text.push_str("none live\n")
    } else if stays {
        writeln!(text, "{words} stay")
    } else {
        writeln!(text, "{words} go to {target}")
    }
}
