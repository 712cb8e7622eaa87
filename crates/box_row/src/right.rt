//! The right to free a row's block.
ghost use Rattle.std.specs.Prelude.{◌≡◌};
ghost use base.Fml.{ftrue};

use core::slots::Lease;
use std::alloc::Global;
use std::marker::{Model, Send, Sync};

/// The right to free a row's block, in a form that may go to another thread, as a `Lease` may not.
pub(crate) struct Right<T> {
    pub(crate) lease: Lease<T, Global>,
}

impl<T> Model for Right<T> {
    ghost also_owns = { λ _. ftrue };
}

unsafe impl<T> Send for Right<T> {}

unsafe impl<T> Sync for Right<T> {}

impl<T> Right<T> {
    pub(crate) fn of(lease: Lease<T, Global>) -> Right<T>
        ensures { result.lease ≡ lease }
    {
        Right { lease }
    }

    pub(crate) fn into_lease(self) -> Lease<T, Global>
        ensures { result ≡ self.lease }
    {
        let Right { lease } = self;
        lease
    }
}
