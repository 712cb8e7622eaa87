//! Conflicts between the references of partners.
ghost use Rattle.std.specs.Prelude.{◌≡◌, ◌-◌, ◌<◌, count_by, slice_index};
ghost use Rattle.std.specs.List.{zip};
ghost use Rattle.object_pairs.specs.Conflicts.{is_in};

/// How a reference of an object differs from that of its partner.
#[derive(Clone, Copy)]
pub enum Conflict {
    /// It is null after the collection, but not before.
    Cleared,
    /// It is null before the collection, but not after.
    Filled,
    /// It leads to an object that isn't the partner of the one to which it led before.
    Elsewhere,
}

impl Conflict {
    /// Whether a reference before, and the one at its place after, are in this conflict.
    pub(crate) fn has(self, partners: &[u32], reference: u32, target: u32) -> bool
        ensures { result ≡ is_in self partners.now reference target }
    {
        match self {
            Conflict::Cleared => reference != 0 && target == 0,
            Conflict::Filled => reference == 0 && target != 0,
            Conflict::Elsewhere => {
                reference != 0 && target != 0 && partner_of(partners, reference) != target
            }
        }
    }

    /// How many of these references are in this conflict.
    pub(crate) fn count(self, partners: &[u32], references: &[u32], targets: &[u32]) -> usize
        ensures { result ≡ count_by (λ x. is_in self partners.now x.0 x.1) (zip references.now targets.now) }
    {
        references
            .iter()
            .zip(targets)
            .filter(|(reference, target)| self.has(partners, **reference, **target))
            .count()
    }
}

/// The partner of the object to which a reference leads, counted from 1, or 0 if it has none.
fn partner_of(partners: &[u32], reference: u32) -> u32
    requires { 0 < reference }
    ensures { result ≡ slice_index partners.now (reference - 1) }
{
    let index = reference as usize - 1;
    if index < partners.len() {
        partners[index]
    } else {
        0
    }
}
