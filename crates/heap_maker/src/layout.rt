//! The objects of a heap and their addresses.
ghost use Rattle.std.specs.Prelude.{◌≡◌, ◌+◌, ◌≤◌, IfOk, length};

use crate::dice::Dice;
use crate::object::Object;
use crate::room::Room;
use std::alloc::{AllocError, Global};

/// The objects of a heap.
#[derive(Drop)]
pub(crate) struct Layout {
    /// All objects, without gaps from address 0 up.
    pub(crate) objects: Vec<Object>,
    /// The references that lead to the live objects, ascending.
    pub(crate) live: Vec<u64>,
}

impl Layout {
    /// Divides the words among objects, live and dead ones in random order.
    pub(crate) fn of(
        alloc: Global,
        mut room: Room,
        reference_percent: u32,
        dice: &mut Dice,
    ) -> Result<Layout, AllocError>
        requires { reference_percent ≤ 100 }
        ensures few { IfOk result (λ layout. length layout.live.items ≤ room.live + room.dead) }
    {
        let mut layout = Layout {
            objects: Vec::new(alloc),
            live: Vec::new(alloc),
        };
        let mut reference = 1;
        while room.words() > 0 {
            let allotment = room.take(dice);
            let percent = u64::from(reference_percent);
            let object = Object::new(allotment, reference, percent, dice);
            layout.objects.push(object)?;
            if allotment.is_live {
                layout.live.push(reference)?;
            }
            reference += allotment.size;
        }
        Ok(layout)
    }

    /// The references that lead to the live objects to which no live object before them refers, ascending.
    /// `is_referenced` says for each live object whether one does.
    ///
    /// All live objects are reachable from these: each of the others is referenced by one before it.
    pub(crate) fn roots(
        &self,
        alloc: Global,
        is_referenced: &[bool],
    ) -> Result<Vec<u64>, AllocError>
        ensures few { IfOk result (λ roots. length roots.items ≤ length self.now.live.items) }
    {
        let mut roots = Vec::new(alloc);
        for (i, root) in self.live.iter().enumerate() {
            if !matches!(is_referenced.get(i), Some(true)) {
                roots.push(*root)?;
            }
        }
        Ok(roots)
    }
}
