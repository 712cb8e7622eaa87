//! A planned slide, and who shares it.
ghost use Rattle.std.specs.Prelude.{◌≡◌, IfOk, IfErr};
ghost use Rattle.std.specs.Arc.{arc_value};
ghost use Rattle.image_streams.specs.declared.fault.Fault.TheVariants.{Memory};

use collector::Slide;
use heap_image::Fault;
use std::alloc::Global;
use std::marker::Model;
use std::sync::Arc;

/// A planned slide of opaque objects. Several threads may each have one of the same slide, to ask where words will go; only the
/// last that is left can begin it.
///
/// Contracts view it as the slide.
#[derive(Drop)]
pub struct PlannedSlide {
    owner: Owner,
}

#[derive(Drop)]
enum Owner {
    Sole(Slide),
    OneOfSeveral(Arc<Slide, Global>),
}

impl Model for PlannedSlide {
    ghost use Rattle.object_heap.specs.HeapImage.{HeapImage};
    ghost use Rattle.caller_heap.specs.PlannedSlides.{image_of_owner};

    ghost Value = { HeapImage };

    ghost view = { λ p. image_of_owner p.owner };
}

impl PlannedSlide {
    /// A slide that nobody shares.
    pub fn new(slide: Slide) -> PlannedSlide
        ensures { result ≡ slide }
    {
        PlannedSlide {
            owner: Owner::Sole(slide),
        }
    }

    /// One of several of this slide.
    fn one_of_several(slide: Arc<Slide, Global>) -> PlannedSlide
        ensures { result ≡ arc_value slide }
    {
        PlannedSlide {
            owner: Owner::OneOfSeveral(slide),
        }
    }

    /// The slide.
    pub fn slide(&self) -> &Slide
        ensures { result.now ≡ self.now }
    {
        match &self.owner {
            Owner::Sole(slide) => slide,
            Owner::OneOfSeveral(slide) => slide,
        }
    }

    /// This one again, and another of the same slide. The only fault is 11, if memory runs out.
    pub fn share(self, alloc: Global) -> (PlannedSlide, Result<PlannedSlide, Fault>)
        ensures same { result.0 ≡ self }
        ensures other { IfOk result.1 (λ other. other ≡ self) }
        ensures fault { IfErr result.1 (λ fault. fault ≡ Memory) }
    {
        match self.into_shared(alloc) {
            Ok(slide) => match Arc::try_clone(&slide) {
                Ok(other) => (
                    PlannedSlide::one_of_several(slide),
                    Ok(PlannedSlide::one_of_several(other)),
                ),
                Err(_) => (PlannedSlide::one_of_several(slide), Err(Fault::Memory)),
            },
            Err(slide) => (PlannedSlide::new(slide), Err(Fault::Memory)),
        }
    }

    /// The slide where several can have it. If memory runs out it comes back.
    fn into_shared(self, alloc: Global) -> Result<Arc<Slide, Global>, Slide>
        ensures shared { IfOk result (λ shared. arc_value shared ≡ self) }
        ensures back { IfErr result (λ slide. slide ≡ self) }
    {
        let PlannedSlide { owner } = self;
        match owner {
            Owner::Sole(slide) => match Arc::new(alloc, slide) {
                Ok(shared) => Ok(shared),
                Err(failed) => Err(failed.value),
            },
            Owner::OneOfSeveral(shared) => Ok(shared),
        }
    }

    /// The slide, to begin it. If there is another one of it, this comes back.
    pub fn into_slide(self) -> Result<Slide, PlannedSlide>
        ensures slide { IfOk result (λ slide. slide ≡ self) }
        ensures back { IfErr result (λ back. back ≡ self) }
    {
        let PlannedSlide { owner } = self;
        match owner {
            Owner::Sole(slide) => Ok(slide),
            Owner::OneOfSeveral(shared) => match Arc::try_unwrap(shared) {
                Ok(slide) => Ok(slide),
                Err(shared) => Err(PlannedSlide::one_of_several(shared)),
            },
        }
    }
}
