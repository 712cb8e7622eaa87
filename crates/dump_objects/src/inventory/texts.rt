//! The texts of a dump that are names of classes.
ghost use Rattle.std.specs.Prelude.{◌≡◌, IsTrue};

use super::name_ids::NameIds;
use dump_records::{Dump, ImportError};
use heap_image::Intake;
use std::alloc::{AllocError, Global};

/// The place of a text in the bytes of all.
#[derive(Clone, Copy)]
pub struct TextPlace {
    pub start: usize,
    pub end: usize,
}

impl TextPlace {
    /// That of a text that the dump lacks.
    pub const NONE: TextPlace = TextPlace { start: 0, end: 0 };
}

/// Texts by their indexes in the list of names.
#[derive(Drop)]
pub struct Texts {
    /// All texts, one after another.
    bytes: Vec<u8>,
    places: Vec<TextPlace>,
}

impl Texts {
    /// No texts, with room for those of `count` names.
    pub fn new(alloc: Global, count: usize) -> Result<Texts, AllocError> {
        Ok(Texts {
            bytes: Vec::new(alloc),
            places: vec![in alloc; TextPlace::NONE; count]?,
        })
    }

    /// Reads and keeps the rest of a record, the text with this id, if it is one of these names.
    pub fn read<R: Intake>(
        &mut self,
        names: &NameIds,
        dump: &mut Dump,
        source: &mut R,
        id: u64,
    ) -> Result<(), ImportError>
        ensures input { result ≡ Err ImportError.Input → IsTrue (R.has_failed source.new) }
    {
        let Some(index) = names.index_of_text(id) else {
            return Ok(());
        };
        let start = self.bytes.len();
        self.append_rest(dump, source)?;
        if let Some(place) = self.places.get_mut(index) {
            place.start = start;
            place.end = self.bytes.len();
        }
        Ok(())
    }

    /// Appends the rest of a record to the bytes.
    fn append_rest<R: Intake>(&mut self, dump: &mut Dump, source: &mut R) -> Result<(), ImportError>
        ensures input { result ≡ Err ImportError.Input → IsTrue (R.has_failed source.new) }
    {
        let mut rest = dump.window.left();
        while rest > 0 {
            let count = dump.window.piece(source, rest, 1)?;
            self.bytes.extend_from_slice(dump.window.front(count))?;
            dump.window.pass(count);
            rest -= count as u64;
        }
        Ok(())
    }

    /// The place of the text of the name with this index. Of several texts with one id it is that of the last.
    pub fn place(&self, index: usize) -> TextPlace {
        match self.places.get(index) {
            Some(place) => *place,
            None => TextPlace::NONE,
        }
    }

    /// The bytes of the text at a place.
    pub fn text(&self, place: TextPlace) -> &[u8] {
        self.bytes.get(place.start..place.end).unwrap_or(&[])
    }

    /// Returns all texts, one after another.
    pub fn into_bytes(self) -> Vec<u8> {
        let Texts { bytes, .. } = self;
        bytes
    }
}
