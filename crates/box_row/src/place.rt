//! The handle of a box that lies in a row.
ghost use Rattle.std.specs.Prelude.{ℕ};
ghost use Rattle.std.specs.Ptr.{Ptr};
ghost use base.Fml.{ftrue};
ghost use denote.RawPtr.{coded_ptr};
ghost use Rattle.box_row.specs.Places.{is_at};

use std::alloc::{AllocError, Allocator};
use std::marker::{Model, Send, Sync};

/// The allocator of a box that lies in a row. It says in which, and at which place of it.
///
/// It has no block to give, and frees none. It takes no bytes.
#[derive(Drop)]
pub struct InRow {
    pub ghost row: { Ptr } by { coded_ptr },
    pub ghost index: { ℕ },
}

impl Model for InRow {
    ghost also_owns = { λ _. ftrue };
}

unsafe impl Allocator for InRow {
    ghost dealloc_token = { λ a ty p. is_at a.row a.index ty p };

    fn allocate(&self, _size: usize, _align: usize) -> Result<*mut u8, AllocError> {
        Err(AllocError)
    }

    unsafe fn deallocate(&self, _ptr: *mut u8, _size: usize, _align: usize) {}

    unsafe fn grow<T>(
        &self,
        _ptr: *mut T,
        _len: usize,
        _old_cap: usize,
        _new_cap: usize,
    ) -> Result<*mut T, AllocError> {
        Err(AllocError)
    }

    unsafe fn shrink<T>(
        &self,
        _ptr: *mut T,
        _len: usize,
        _old_cap: usize,
        _new_cap: usize,
    ) -> Result<*mut T, AllocError> {
        Err(AllocError)
    }
}

unsafe impl Send for InRow {}

unsafe impl Sync for InRow {}
