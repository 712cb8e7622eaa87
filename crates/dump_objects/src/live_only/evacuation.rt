//! Copies survivors into a heap of their own.
ghost use Rattle.std.specs.Prelude.{◌≢◌};

use super::survivors::Survivors;
use crate::heap::{UnsealedHeap, header, references, size};
use dump_records::ImportError;

impl Survivors {
    /// Copies the survivors into an empty heap with room for them, in their order and without gaps, and redirects their
    /// references and `roots`, which are addresses of survivors. An object with more references than a header can count
    /// is an error.
    ///
    /// In the old heap each first word is replaced by a reference to the copy.
    pub fn evacuate(
        &self,
        old: &mut UnsealedHeap,
        new: &mut UnsealedHeap,
        roots: &mut [u64],
    ) -> Result<(), ImportError>
        ensures { result ≢ Err ImportError.Input }
    {
        self.forward(old, new);
        self.copy_all(old, new)?;
        for root in roots {
            *root = forwarding_address(old, *root);
        }
        Ok(())
    }

    /// Determines the forwarding address of each survivor, and moves its first word there.
    fn forward(&self, old: &mut UnsealedHeap, new: &mut UnsealedHeap) {
        let mut to = 0u64;
        for address in self.addresses.as_slice() {
            let first = old.word(*address);
            new.put(to, first);
            old.put(*address, to.saturating_add(1));
            to = to.saturating_add(size(first));
        }
    }

    fn copy_all(&self, old: &UnsealedHeap, new: &mut UnsealedHeap) -> Result<(), ImportError>
        ensures { result ≢ Err ImportError.Input }
    {
        for address in self.addresses.as_slice() {
            copy(old, new, *address)?;
        }
        Ok(())
    }
}

/// The address of a survivor in the new heap, once it is forwarded.
pub(super) fn forwarding_address(old: &UnsealedHeap, address: u64) -> u64 {
    old.word(address).saturating_sub(1)
}

/// Turns the first word of a survivor's copy into a header, copies the words after it, and redirects the references.
fn copy(old: &UnsealedHeap, new: &mut UnsealedHeap, from: u64) -> Result<(), ImportError>
    ensures { result ≢ Err ImportError.Input }
{
    let to = forwarding_address(old, from);
    let word = new.word(to);
    new.put(to, header(word)?);
    let body = to.saturating_add(1);
    new.copy_from(
        body,
        old,
        from.saturating_add(1),
        size(word).saturating_sub(1),
    );
    for slot in body..body.saturating_add(references(word)) {
        let reference = new.word(slot);
        if reference != 0 {
            new.put(slot, old.word(reference - 1));
        }
    }
    Ok(())
}
