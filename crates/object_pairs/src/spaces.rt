//! The spaces of a heap: objects between wide gaps.
ghost use Rattle.std.specs.Prelude.{◌≡◌, ◌<◌, ◌-◌, ◌++◌, ◌∷◌, [], IfOk, OnOk, cond, length, map, slice_index};
ghost use Rattle.object_pairs.specs.Spaces.{begins, starts_of, reach};

use crate::graph::{Object, id_at};
use std::alloc::{AllocError, Global};

/// How far an object reaches at most behind its id, beside its references and data, and how wide a gap within a space may be: 4,096
/// bytes.
const WIDE: u64 = 4_096;

/// The indexes of the objects with which the spaces of a heap begin.
pub fn starts_of(alloc: Global, objects: &[Object]) -> Result<Vec<usize>, AllocError>
    ensures { IfOk result (λ starts. starts.items ≡ starts_of objects.now) }
{
    let mut starts = Vec::new(alloc);
    for index in 0..objects.len() {
        push_if(&mut starts, begins(objects, index), index)?;
    }
    Ok(starts)
}

/// Appends an index, if it is to be kept.
fn push_if(starts: &mut Vec<usize>, is_kept: bool, index: usize) -> Result<(), AllocError>
    ensures { OnOk result (starts.new.items ≡ starts.old.items ++ cond is_kept (index ∷ []) []) }
{
    if is_kept {
        starts.push(index)?;
    }
    Ok(())
}

/// Whether a space begins with the object with this index.
pub(crate) fn begins(objects: &[Object], index: usize) -> bool
    ensures { result ≡ begins objects.now index }
{
    index == 0 || reach_at(objects, index - 1) < id_at(objects, index)
}

/// How far the space of the object with this index reaches at least, or 0 if there is no such object.
fn reach_at(objects: &[Object], index: usize) -> u64
    ensures { result ≡ slice_index (map reach objects.now) index }
{
    if index < objects.len() {
        objects[index].reach()
    } else {
        0
    }
}

impl Object {
    /// How far the space of the object reaches at least.
    fn reach(&self) -> u64
        ensures { result ≡ reach self.now }
    {
        let references = u64::from(self.references) * 8;
        self.id
            .saturating_add(references + WIDE)
            .saturating_add(self.data_bytes)
    }
}
