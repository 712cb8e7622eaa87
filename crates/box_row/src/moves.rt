//! Values of a list move into a row of places, and back. The last of the list has the first place.
ghost use Rattle.std.specs.Prelude.{◌≡◌, ◌≤◌, [], length, reverse};
ghost use Rattle.core.specs.Mem.Slots.{slots_items, slots_ptr, slots_len, IsFull, SamePlaces};
ghost use Rattle.std_alloc.specs.Vec.{vec_capacity};

use core::slots::Slots;

/// Moves all values of the list in, and leaves it empty.
pub(crate) fn move_in<T>(places: &mut Slots<T>, values: &mut Vec<T>)
    requires { slots_len places.old ≡ length values.old.items }
    ensures items { reverse (slots_items places.new) ≡ values.old.items }
    ensures full { IsFull places.new }
    ensures places { SamePlaces places.old places.new }
    ensures left { values.new.items ≡ [] }
    ensures capacity { vec_capacity values.new ≡ vec_capacity values.old }
{
    let mut i = 0;
    while let Some(x) = values.pop() {
        places.put(i, x);
        i += 1;
    }
}

/// Moves all values out, into a list that has room for them.
pub(crate) fn move_out<T>(places: &mut Slots<T>, values: &mut Vec<T>)
    requires full { IsFull places.old }
    requires empty { values.old.items ≡ [] }
    requires room { slots_len places.old ≤ vec_capacity values.old }
    ensures items { values.new.items ≡ reverse (slots_items places.old) }
    ensures places { SamePlaces places.old places.new }
{
    let mut i = places.len();
    while i > 0 {
        i -= 1;
        values.push_reserved(places.take(i));
    }
}
