ghost use Rattle.std.specs.Prelude.{◌≡◌, IsTrue};

use super::Dump;
use super::record::Record;
use crate::error::ImportError;
use heap_image::Intake;

/// Handles the records of the heap in one reading of a dump.
pub trait RecordVisitor {
    /// Handles a record whose head has been read, and reads its body to the end.
    fn visit<R: Intake>(
        &mut self,
        dump: &mut Dump,
        source: &mut R,
        record: Record,
    ) -> Result<(), ImportError>
        ensures input { result ≡ Err ImportError.Input → IsTrue (R.has_failed source.new) };
}
