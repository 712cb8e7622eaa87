//! Tests of images of regions that a caller has.
ghost use Rattle.std.specs.Prelude.{IfOk};
ghost use Rattle.object_heap.specs.HeapImage.{AreBlocks};

use crate::checks::{equal, equal_bytes};
use crate::images::texts::base_text;
use heap_image::{
    Alone, Fault, Image, ImageParts, RefusedRegions, UncheckedParts, decode, encode,
    image_of_regions,
};
use std::alloc::Global;
use std::test::Fail;

/// The parts of the base heap, which were checked.
pub(crate) fn base_parts(alloc: Global) -> Result<ImageParts, Fail>
    ensures { IfOk result (λ parts. AreBlocks parts.region_log parts.regions.items) }
{
    let text = base_text(alloc)?;
    Ok(decode(alloc, text.as_slice(), &Alone)?.into_parts())
}

/// The image of these parts with this live list, or the regions and why they are none.
fn image_with(
    alloc: Global,
    parts: ImageParts,
    live: &[u64],
) -> Result<Result<Image, RefusedRegions>, Fail>
    requires { AreBlocks parts.region_log parts.regions.items }
{
    let ImageParts {
        version,
        region_log,
        allowance,
        regions,
        live: _,
        roots: _,
    } = parts;
    let tail = Vec::from_slice(alloc, live)?;
    Ok(image_of_regions(
        alloc,
        UncheckedParts {
            version,
            region_log,
            allowance,
            regions,
            tail,
        },
        &Alone,
    ))
}

#[test]
fn regions_are_an_image(rt: HostRuntime) -> Result<(), Fail> {
    let parts = base_parts(rt.alloc())?;
    let live = Vec::from_slice(rt.alloc(), parts.live.as_slice())?;
    let Ok(image) = image_with(rt.alloc(), parts, live.as_slice())? else {
        return Err(Fail::from("refused"));
    };
    let text = base_text(rt.alloc())?;
    equal_bytes(&rt, encode(rt.alloc(), &image)?.as_slice(), text.as_slice());
    Ok(())
}

#[test]
fn refused_regions_come_back(rt: HostRuntime) -> Result<(), Fail> {
    let parts = base_parts(rt.alloc())?;
    let count = parts.regions.len();
    let Err(refused) = image_with(rt.alloc(), parts, &[1, 0])? else {
        return Err(Fail::from("taken"));
    };
    equal(
        &rt,
        (refused.fault, refused.regions.len()),
        (Fault::LiveOrder(1), count),
    );
    Ok(())
}
