//! Values side by side in one block.
ghost use Rattle.std.specs.Prelude.{◌≡◌, ◌+◌, ◌≤◌, [], length};
ghost use Rattle.core.specs.Mem.Slots.{lease_ptr, lease_len, lease_heap};
ghost use Rattle.std_alloc.specs.Vec.{vec_capacity};

use crate::moves::{move_in, move_out};
use crate::place::InRow;
use crate::rest::Rest;
use crate::right::Right;
use core::slots::{release, reserve};
use std::alloc::Global;
use std::mem::ManuallyDrop;

/// Values side by side in one block of memory. The last of them may be out, each as a box in its place.
pub struct Row<T> {
    rest: Rest<T>,
    /// The number of all values.
    count: usize,
    /// The number of those that are out.
    out: usize,
    right: Right<T>,
    /// Empty, with room for all values.
    room: Vec<T>,
    alloc: Global,
    ghost out_is: { out ≡ rest.index },
    ghost count_is: { rest.index + length rest.items ≡ count },
    ghost leased: { (lease_ptr right.lease ≡ rest.row) × (lease_len right.lease ≡ count) × (lease_heap right.lease ≡ alloc) },
    ghost room_is: { (room.items ≡ []) × (count ≤ vec_capacity room) },
}

impl<T: Drop> Row<T> {
    ghost use Rattle.std.specs.Prelude.{◌<◌, ◌∷◌, ◌++◌, IfOk, IfErr, IfSome, IfNone};
    ghost use Rattle.std_alloc.specs.Box.{box_allocator};
    ghost use Rattle.box_row.specs.Rows.{IsSameRow, items, spot};

    /// Takes one block for all values of the list, and moves them in. If memory runs out, the list comes back as it was.
    pub fn of(alloc: Global, mut values: Vec<T>) -> Result<Row<T>, Vec<T>>
        ensures values { IfOk result (λ row. items row ≡ values.items) }
        ensures count { IfOk result (λ row. row.count ≡ length values.items) }
        ensures refused { IfErr result (λ list. list.items ≡ values.items) }
    {
        let Ok((mut places, lease)) = (unsafe { reserve(&alloc, values.as_slice()) }) else {
            return Err(values);
        };
        move_in(&mut places, &mut values);
        let count = places.len();
        Ok(Row {
            rest: Rest::of(places),
            count,
            out: 0,
            right: Right::of(lease),
            room: values,
            alloc,
        })
    }

    /// How many values are in.
    pub fn len(&self) -> usize
        ensures { result ≡ length (items self.now) }
    {
        self.count - self.out
    }

    /// Takes the last value that is in out, as a box in its place. `None` if none is in.
    pub fn pop(&mut self) -> Option<Box<T, InRow>>
        ensures value { IfSome result (λ last. items self.old ≡ items self.new ++ last.value ∷ []) }
        ensures place { IfSome result (λ last. box_allocator last ≡ spot self.old (length (items self.new))) }
        ensures none { IfNone result ((items self.old ≡ []) × (items self.new ≡ [])) }
        ensures same { IsSameRow self.old self.new }
    {
        if self.out == self.count {
            return None;
        }
        self.out += 1;
        Some(self.rest.take())
    }

    /// Puts the value back that was taken out last of those that are out, whatever it is by now.
    pub fn push(&mut self, value: Box<T, InRow>)
        requires one_is_out { length (items self.old) < self.old.count }
        requires place { box_allocator value ≡ spot self.old (length (items self.old)) }
        ensures value { items self.new ≡ items self.old ++ value.value ∷ [] }
        ensures same { IsSameRow self.old self.new }
    {
        self.out -= 1;
        self.rest.put(value);
    }

    /// All values, in their order, once none is out. It takes no memory, and can't fail.
    pub fn into_values(self) -> Vec<T>
        requires none_is_out { length (items self) ≡ self.count }
        ensures { result.items ≡ items self }
    {
        let Row {
            rest,
            count,
            out: _,
            right,
            mut room,
            alloc,
        } = self;
        let mut places = rest.into_slots(count);
        move_out(&mut places, &mut room);
        release(&alloc, places, right.into_lease());
        room
    }
}

/// Drops the values, if none is out, and frees the block. Else the block and what is in it stay allocated for good.
impl<T: Drop> Drop for Row<T> {
    fn drop(self) {
        if self.out == 0 {
            drop(self.into_values());
            return;
        }
        let Row {
            rest: _,
            count: _,
            out: _,
            right,
            room: _,
            alloc: _,
        } = self;
        let _leaked = unsafe { ManuallyDrop::new_unchecked(right.into_lease()) };
    }
}
