//! `Survey`: the marks of an image and its plan.
ghost use Rattle.std.specs.Prelude.{◌≡◌, IfOk, IfErr};
ghost use Rattle.image_streams.specs.declared.fault.Fault.TheVariants.{Memory};

use crate::plan::Plan;
use crate::surveyor::Surveyor;
use heap_image::{Fault, Image};
use mark_bitmap::{Listed, Marks, OpaqueObjects};
use std::alloc::Global;
use std::marker::Model;

/// What is known about an image before anything moves: its marks, and the plan of its collection.
///
/// A contract sees them as the image that they were made of, as it was then.
pub struct Survey {
    marks: Marks,
    plan: Plan,
}

impl Drop for Survey {
    fn drop(self) {
        let Self { marks, plan } = self;
    }
}

impl Model for Survey {
    ghost use Rattle.std.specs.Prelude.{◌≡◌};
    ghost use Rattle.object_heap.specs.HeapImage.{HeapImage};

    ghost Value = { HeapImage };

    ghost view = { λ s. s.plan };

    ghost invariant = { λ s. s.marks ≡ s.plan };
}

impl Survey {
    /// Surveys an image. The surveyor's threads make the marks and count the regions.
    ///
    /// The only error is [`Fault::Memory`], if an allocation fails.
    pub fn of<S: Surveyor>(alloc: Global, image: &Image, surveyor: &S) -> Result<Survey, Fault>
        requires { S.may_start }
        ensures survey { IfOk result (λ survey. survey ≡ image.now) }
        ensures fault { IfErr result (λ fault. fault ≡ Memory) }
    {
        let marks = Marks::of(alloc, image, surveyor)?;
        Survey::with_marks(alloc, &Listed::of_image(image), marks, surveyor)
    }

    /// Surveys opaque objects, of which nothing is known but where they lie: their words may change until they are moved.
    ///
    /// The only error is [`Fault::Memory`], if an allocation fails.
    pub fn of_objects<S: Surveyor>(
        alloc: Global,
        objects: &OpaqueObjects<'_>,
        surveyor: &S,
    ) -> Result<Survey, Fault>
        requires { S.may_start }
        ensures survey { IfOk result (λ survey. survey ≡ objects.now) }
        ensures fault { IfErr result (λ fault. fault ≡ Memory) }
    {
        let marks = Marks::of_objects(alloc, objects, surveyor)?;
        Survey::with_marks(alloc, &Listed::of_objects(objects), marks, surveyor)
    }

    /// Like [`of`](Survey::of), but the marks take over the bits that reading the image has kept, if it has. What else it
    /// kept is freed then, which leaves its memory to the plan. The image itself doesn't change.
    pub fn taking_over<S: Surveyor>(
        alloc: Global,
        image: &mut Image,
        surveyor: &S,
    ) -> Result<Survey, Fault>
        requires { S.may_start }
        ensures survey { IfOk result (λ survey. survey ≡ image.old) }
        ensures same { image.new ≡ image.old }
        ensures fault { IfErr result (λ fault. fault ≡ Memory) }
    {
        let marks = Marks::taking_over(alloc, image, surveyor)?;
        image.forget_seen();
        Survey::with_marks(alloc, &Listed::of_image(image), marks, surveyor)
    }

    /// Surveys what is listed, with these marks.
    fn with_marks<S: Surveyor>(
        alloc: Global,
        image: &Listed<'_>,
        marks: Marks,
        surveyor: &S,
    ) -> Result<Survey, Fault>
        requires start { S.may_start }
        requires marks { marks ≡ image.now }
        ensures survey { IfOk result (λ survey. survey ≡ image.now) }
        ensures fault { IfErr result (λ fault. fault ≡ Memory) }
    {
        let plan = Plan::of_listed(alloc, image, &marks, surveyor)?;
        Ok(Survey { marks, plan })
    }

    #[inline]
    pub fn plan(&self) -> &Plan
        ensures { result.now ≡ self.now }
    {
        &self.plan
    }

    #[inline]
    pub fn marks(&self) -> &Marks
        ensures { result.now ≡ self.now }
    {
        &self.marks
    }
}
