//! Reads the bytes of a store in order.
ghost use Rattle.image_streams.specs.Cursor.{StartsAt};

use crate::{Failed, Intake, Store};

/// An intake that reads a store in order, from an offset on.
#[derive(Drop)]
pub(crate) struct Cursor<'a, S: Store> {
    store: &'a S,
    at: u64,
    failed: bool,
}

impl<'a, S: Store> Cursor<'a, S> {
    pub(crate) fn new(store: &'a S, at: u64) -> Cursor<'a, S>
        ensures { StartsAt store.now at result }
    {
        Cursor {
            store,
            at,
            failed: false,
        }
    }
}

impl<S: Store> Intake for Cursor<'_, S> {
    ghost use Rattle.image_streams.specs.Extents.{from_place};

    ghost left = { λ cursor. from_place (S.bytes cursor.store.now) cursor.at };

    ghost has_failed = { λ cursor. cursor.failed };

    fn take(&mut self, buffer: &mut [u8]) -> Result<usize, Failed> {
        if self.failed {
            return Err(Failed);
        }
        if let Ok(n) = self.store.take_at(self.at, buffer) {
            if let Some(next) = self.at.checked_add(n as u64) {
                self.at = next;
                return Ok(n);
            }
        }
        self.failed = true;
        Err(Failed)
    }

    fn failed(&self) -> bool {
        self.failed
    }
}
