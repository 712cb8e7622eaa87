//! The heap of an image before its live objects are marked.
ghost use Rattle.std.specs.Prelude.{IfOk, ◌≡◌, ◌≢◌};
ghost use Rattle.heap_dump.specs.ImportFigures.{AreFiguresOf};
ghost use Rattle.heap_dump.specs.Requested.{IsImageFor};

use super::roots::roots_to;
use super::weak::put_weak;
use crate::figures::ImportFigures;
use crate::limits::words_within_limits;
use crate::listing::object_count::count_objects;
use crate::options::{Options, Regions};
use dump_objects::{Followed, UnsealedHeap, WeakReference};
use dump_records::ImportError;
use heap_image::{Fault, Image, ImageParts, marked_parts_are_valid};
use std::alloc::Global;

/// A heap whose objects have their headers, and its roots.
#[derive(Drop)]
pub(crate) struct Draft {
    pub(crate) heap: UnsealedHeap,
    /// The addresses of the objects to which roots lead.
    pub(crate) roots: Vec<u64>,
    /// The references that aren't followed, whose words are null.
    pub(crate) weak: Vec<WeakReference>,
    /// How many gaps were dropped because they are too wide.
    pub(crate) dropped_gaps: u64,
    /// How many references and roots lead to objects that are missing from the dump.
    pub(crate) unresolved: u64,
}

/// An imported heap.
#[derive(Drop)]
pub struct Imported {
    /// The image, of version 2 or 3.
    pub image: Image,
    /// The references that weren't followed. Those to live objects are in the image, the others are null.
    pub weak: Vec<WeakReference>,
    /// Its counts.
    pub figures: ImportFigures,
}

impl Draft {
    /// Marks the heap from its roots, puts weak references to what is live, and returns the image. A heap that has other regions than requested is rejected, and
    /// so are more roots than an image can count.
    pub(crate) fn into_image(
        self,
        alloc: Global,
        requested: Regions,
        options: Options,
    ) -> Result<Imported, ImportError>
        ensures requested { IfOk result (λ imported. IsImageFor requested.version requested.log options.allowance options.followed imported) }
        ensures no_device { result ≢ Err ImportError.Input }
    {
        let Draft {
            heap,
            roots,
            weak,
            dropped_gaps,
            unresolved,
        } = self;
        let (region_log, mut regions) = heap.into_parts();
        if region_log != requested.log {
            return Err(ImportError::NoHeap(Fault::RegionLog));
        }
        let words = words_within_limits(region_log, regions.as_slice())?;
        let version = requested.version_for(words)?;
        let roots = roots_to(alloc, roots.as_slice(), words)?;
        if roots.len() > u32::MAX as usize {
            return Err(ImportError::TooManyRoots(roots.len() as u64));
        }
        let live = put_weak(
            alloc,
            region_log,
            regions.as_mut_slice(),
            roots.as_slice(),
            weak.as_slice(),
        )?;
        marked_parts_are_valid();
        let parts = ImageParts {
            version,
            region_log,
            allowance: options.allowance,
            regions,
            live,
            roots: Some(roots),
        };
        let image = parts.into_image();
        let figures = ImportFigures {
            dropped_gaps,
            unresolved,
            ..figures_of(&image, options.followed)?
        };
        Ok(Imported {
            image,
            weak,
            figures,
        })
    }
}

/// The counts of an image whose live objects are reached by these references.
fn figures_of(image: &Image, followed: Followed) -> Result<ImportFigures, ImportError>
    ensures figures { IfOk result (λ figures. AreFiguresOf image.now figures) }
    ensures followed { IfOk result (λ figures. figures.followed ≡ followed) }
    ensures no_device { result ≢ Err ImportError.Input }
{
    let objects = count_objects(image)?;
    let live = image.live().len() as u64;
    Ok(ImportFigures {
        words: image.len(),
        objects,
        roots: image.roots().len() as u64,
        live,
        dead: objects.saturating_sub(live),
        dropped_gaps: 0,
        unresolved: 0,
        followed,
    })
}
