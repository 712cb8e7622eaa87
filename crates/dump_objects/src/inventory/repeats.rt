//! Finds the first object of a dump that repeats the id of another.
ghost use Rattle.std.specs.Prelude.{◌≡◌, ◌≢◌, IsTrue};

use super::objects::Objects;
use dump_records::{Dump, ImportError, Problem, Record, RecordVisitor};
use heap_image::Intake;
use std::alloc::Global;

/// The objects that have been read again.
#[derive(Drop)]
struct Repeats<'a> {
    objects: &'a Objects,
    /// One flag per object, in the order of ids.
    is_seen: Vec<bool>,
}

/// Reads a dump again in which two of these objects have one id, up to the second of them, which is the error. If none
/// repeats an id, the dump has changed.
pub fn find_repeat<R: Intake>(
    alloc: Global,
    objects: &mut Objects,
    source: &mut R,
) -> Result<(), ImportError>
    ensures error { result ≢ Ok tt }
    ensures input { result ≡ Err ImportError.Input → IsTrue (R.has_failed source.new) }
{
    objects.divide()?;
    let mut repeats = Repeats {
        objects,
        is_seen: vec![in alloc; false; objects.len()]?,
    };
    let mut dump = Dump::open(source)?;
    dump.visit_records(source, &mut repeats)?;
    Err(dump.problem(Problem::Changed))
}

impl Repeats<'_> {
    /// Sets the flag of the object with this id. It is an error if it was set before.
    fn see(&mut self, dump: &Dump, id: u64) -> Result<(), ImportError>
        ensures { result ≢ Err ImportError.Input }
    {
        let Some(index) = self.objects.index_of(id) else {
            return Err(dump.problem(Problem::Changed));
        };
        match self.is_seen.get_mut(index) {
            Some(is_seen) if !*is_seen => {
                *is_seen = true;
                Ok(())
            }
            _ => Err(dump.problem(Problem::SecondObject(id))),
        }
    }
}

impl RecordVisitor for Repeats<'_> {
    fn visit<R: Intake>(
        &mut self,
        dump: &mut Dump,
        source: &mut R,
        record: Record,
    ) -> Result<(), ImportError> {
        match record {
            Record::Object(object) => {
                self.see(dump, object.id)?;
                dump.skip_object(source, object.kind)
            }
            _ => Ok(()),
        }
    }
}
