//! Two graphs with the pairs of their objects.
ghost use Rattle.std.specs.Prelude.{◌≡◌, if◌then◌else◌};

pub(crate) mod conflict;

use crate::graph::Graph;
use crate::pairing::Pairing;
use conflict::Conflict;

/// The objects before and after a collection, and which are the same.
#[derive(Clone, Copy)]
pub struct Paired<'a> {
    pub before: &'a Graph,
    pub after: &'a Graph,
    pub pairing: &'a Pairing,
}

impl Paired<'_> {
    ghost use Rattle.std.specs.Prelude.{◌≡◌, ◌<◌, ◌==◌, not, length, count_by};
    ghost use Rattle.object_pairs.specs.Pairing.{IsPairing};
    ghost use Rattle.object_pairs.specs.Conflicts.{changed_at, changed_in, conflicts_at, conflicts_in};

    /// How many objects have partners.
    pub fn paired(&self) -> usize
        ensures { result ≡ count_by (λ partner. not (partner == 0)) self.now.pairing.now.partners.items }
    {
        self.pairing
            .partners
            .iter()
            .filter(|partner| **partner != 0)
            .count()
    }

    /// How many references of paired objects are in this conflict with those of their partners.
    pub fn conflicts(&self, kind: Conflict) -> u64
        requires { IsPairing self.now.before.now.objects.items self.now.after.now.objects.items self.now.pairing.now }
        ensures { result ≡ conflicts_in kind self.now.before.now self.now.after.now self.now.pairing.now.partners.items }
    {
        let mut conflicts = 0u64;
        for index in 0..self.before.objects.len() {
            conflicts = conflicts.saturating_add(self.conflicts_at(kind, index));
        }
        conflicts
    }

    /// How many references of the object before with this index are in this conflict with those of its partner.
    fn conflicts_at(&self, kind: Conflict, index: usize) -> u64
        requires pairing { IsPairing self.now.before.now.objects.items self.now.after.now.objects.items self.now.pairing.now }
        requires inside { index < length self.now.before.now.objects.items }
        ensures { result ≡ conflicts_at kind self.now.before.now self.now.after.now self.now.pairing.now.partners.items index }
    {
        let partner = self.pairing.partners[index];
        if partner == 0 {
            return 0;
        }
        let one = &self.before.objects[index];
        let other = &self.after.objects[partner as usize - 1];
        let (references, targets) = (
            self.before.references_of(one),
            self.after.references_of(other),
        );
        kind.count(&self.pairing.partners, references, targets) as u64
    }

    /// How many objects have other data than their partners, by their checksums.
    pub fn changed(&self) -> u64
        requires { IsPairing self.now.before.now.objects.items self.now.after.now.objects.items self.now.pairing.now }
        ensures { result ≡ changed_in self.now.before.now.objects.items self.now.after.now.objects.items self.now.pairing.now.partners.items }
    {
        let mut changed = 0u64;
        for index in 0..self.before.objects.len() {
            changed = changed.saturating_add(one_if(self.is_changed(index)));
        }
        changed
    }

    /// Whether the object before with this index has other data than its partner.
    pub(crate) fn is_changed(&self, index: usize) -> bool
        requires pairing { IsPairing self.now.before.now.objects.items self.now.after.now.objects.items self.now.pairing.now }
        requires inside { index < length self.now.before.now.objects.items }
        ensures { result ≡ changed_at self.now.before.now.objects.items self.now.after.now.objects.items self.now.pairing.now.partners.items index }
    {
        let partner = self.pairing.partners[index];
        if partner == 0 {
            return false;
        }
        let other = &self.after.objects[partner as usize - 1];
        self.before.objects[index].checksum != other.checksum
    }
}

/// 1 for true, and 0 for false.
fn one_if(is_counted: bool) -> u64
    ensures { result ≡ if is_counted then 1 else 0 }
{
    if is_counted { 1 } else { 0 }
}
