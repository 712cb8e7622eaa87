//! The right to have a box back whose value was shared out.
ghost use Rattle.std.specs.Prelude.{◌≡◌, ℕ};
ghost use Rattle.std_alloc.specs.Box.{box_allocator};
ghost use Rattle.read_shares.specs.Parts.{all_parts};
ghost use Rattle.read_shares.specs.Deed.{deed_owns};

use crate::share::ReadShare;
use crate::term::Term;
use std::alloc::Allocator;
use std::marker::{Model, Send, Sync};

/// The right to have a box back, for all parts of its value.
///
/// A deed alone doesn't read the value. If it is dropped, shares still read the value, and its memory is never freed.
#[derive(Drop)]
pub struct Deed<T, A: Allocator> {
    at: *mut T,
    alloc: A,
    pub ghost value: { T },
    pub ghost origin: { ℕ },
}

impl<T, A: Allocator> Model for Deed<T, A> {
    ghost also_owns = { λ d. deed_owns (A.dealloc_token d.alloc) T.row d.at d.value d.origin };
}

unsafe impl<T: Send, A: Allocator + Send> Send for Deed<T, A> {}

unsafe impl<T: Send, A: Allocator + Send> Sync for Deed<T, A> {}

/// Shares a value out. The share has all parts of it.
pub fn share_out<T: Drop, A: Allocator>(whole: Box<T, A>) -> (Deed<T, A>, ReadShare<T>)
    ensures value { (result.0.value ≡ whole.value) × (result.1.value ≡ whole.value) }
    ensures same { result.1.origin ≡ result.0.origin }
    ensures all { result.1.parts ≡ all_parts }
    ensures alloc { result.0.alloc ≡ box_allocator whole }
{
    share_out_for(Term::new(), whole)
}

/// Shares a value out for this term. The share has all parts of it.
pub fn share_out_for<T: Drop, A: Allocator>(
    term: Term,
    whole: Box<T, A>,
) -> (Deed<T, A>, ReadShare<T>)
    ensures value { (result.0.value ≡ whole.value) × (result.1.value ≡ whole.value) }
    ensures same { (result.0.origin ≡ term.origin) × (result.1.origin ≡ term.origin) }
    ensures all { result.1.parts ≡ all_parts }
    ensures alloc { result.0.alloc ≡ box_allocator whole }
{
    let Term {} = term;
    let (at, alloc) = Box::into_raw_with_allocator(whole);
    (Deed { at, alloc }, ReadShare { at })
}

/// The box, for its deed and all parts of its value. It tests nothing and can't fail.
pub fn unite<T, A: Allocator>(deed: Deed<T, A>, all: ReadShare<T>) -> Box<T, A>
    requires same { all.origin ≡ deed.origin }
    requires all { all.parts ≡ all_parts }
    ensures value { result.value ≡ deed.value }
    ensures alloc { box_allocator result ≡ deed.alloc }
{
    let Deed { at, alloc } = deed;
    let ReadShare { at: _ } = all;
    unsafe { Box::from_raw(alloc, at) }
}
