//! What is left of a row from a place on.
ghost use Rattle.std.specs.Prelude.{◌≡◌, ℕ, ◌+◌, ◌-◌, ◌<◌, ◌≤◌, List, ◌∷◌, length};
ghost use Rattle.std.specs.Ptr.{Ptr};
ghost use Rattle.core.specs.Mem.Slots.{slots_items, slots_ptr, slots_len, IsFull};
ghost use Rattle.std_alloc.specs.Box.{box_allocator};
ghost use denote.RawPtr.{coded_ptr};
ghost use Rattle.box_row.specs.Handles.{place_of};
ghost use Rattle.box_row.specs.Ownership.{rest_owns};

use crate::place::InRow;
use core::slots::Slots;
use std::marker::{Model, Send, Sync};

/// The values from a place on. Those before it are out.
#[derive(Drop)]
pub(crate) struct Rest<T> {
    at: *mut T,
    pub(crate) ghost row: { Ptr } by { coded_ptr },
    pub(crate) ghost index: { ℕ },
    pub(crate) ghost items: { List T },
}

impl<T> Model for Rest<T> {
    ghost also_owns = { λ r. rest_owns T.row r.row r.at r.index r.items };
}

unsafe impl<T: Send> Send for Rest<T> {}

unsafe impl<T: Send> Sync for Rest<T> {}

impl<T> Rest<T> {
    /// All values of a row of places.
    pub(crate) fn of(row: Slots<T>) -> Rest<T>
        requires { IsFull row }
        ensures row { result.row ≡ slots_ptr row }
        ensures index { result.index ≡ 0 }
        ensures items { result.items ≡ slots_items row }
    {
        let (at, _) = unsafe { row.into_raw_parts() };
        Rest { at }
    }

    /// The row of places again, where none is out.
    pub(crate) fn into_slots(self, len: usize) -> Slots<T>
        requires first { self.index ≡ 0 }
        requires all { len ≡ length self.items }
        ensures row { slots_ptr result ≡ self.row }
        ensures len { slots_len result ≡ len }
        ensures items { slots_items result ≡ self.items }
        ensures full { IsFull result }
    {
        let Rest { at } = self;
        unsafe { Slots::from_raw_parts(at, len) }
    }

    /// Takes the first value out, as a box in its place.
    pub(crate) fn take(&mut self) -> Box<T, InRow>
        requires { 0 < length self.old.items }
        ensures value { self.old.items ≡ result.value ∷ self.new.items }
        ensures place { box_allocator result ≡ place_of self.old.row self.old.index }
        ensures left { (self.new.row ≡ self.old.row) × (self.new.index ≡ self.old.index + 1) }
    {
        let at = self.at;
        unsafe {
            self.at = at.add(1);
            Box::from_raw(InRow {}, at)
        }
    }

    /// Puts the value of the place before the first back.
    pub(crate) fn put(&mut self, value: Box<T, InRow>)
    where
        T: Drop,
        requires out { 0 < self.old.index }
        requires place { box_allocator value ≡ place_of self.old.row (self.old.index - 1) }
        ensures value { self.new.items ≡ value.value ∷ self.old.items }
        ensures left { (self.new.row ≡ self.old.row) × (self.new.index ≡ self.old.index - 1) }
    {
        let (at, place) = Box::into_raw_with_allocator(value);
        let InRow {} = place;
        self.at = at;
    }
}
