//! Walks two graphs at once.
ghost use Rattle.std.specs.Prelude.{◌≡◌, IfOk};
ghost use Rattle.object_pairs.specs.Graph.{comes_before};
ghost use Rattle.object_pairs.specs.Pairing.{IsPairing};

use super::Pairing;
use crate::graph::{Graph, Object, Root};
use std::alloc::{AllocError, Global};

/// The pairs that are found, in the order in which their references are followed.
#[derive(Drop)]
struct Walk {
    pairing: Pairing,
    /// The indexes of their objects before.
    waiting: Vec<u32>,
}

/// Pairs the objects of a heap before and after a collection: those to which roots of one place lead, in turn, and then those to which
/// the references of partners lead, in their order, the partners found first before those found by them. An object gets the first
/// partner that it can have.
///
/// Memory is the only error.
pub fn pair_objects(alloc: Global, before: &Graph, after: &Graph) -> Result<Pairing, AllocError>
    ensures { IfOk result (λ pairing.
        IsPairing before.now.objects.items after.now.objects.items pairing) }
{
    let mut walk = Walk {
        pairing: Pairing::new(alloc, &before.objects, &after.objects)?,
        waiting: Vec::new(alloc),
    };
    walk.offer_roots(before, after)?;
    walk.follow_all(before, after)?;
    let Walk { pairing, .. } = walk;
    Ok(pairing)
}

impl Walk {
    /// Pairs two objects if they can be partners. Then their references are to be followed.
    fn offer(
        &mut self,
        before: &[Object],
        after: &[Object],
        i: u32,
        j: u32,
    ) -> Result<(), AllocError>
        requires { IsPairing before.now after.now self.old.pairing }
        ensures { IsPairing before.now after.now self.new.pairing }
    {
        if self.pairing.join(before, after, i, j) {
            self.waiting.push(i)?;
        }
        Ok(())
    }

    /// Offers what the roots lead to: of those of one place the first of both, then the second of both, and so on.
    fn offer_roots(&mut self, before: &Graph, after: &Graph) -> Result<(), AllocError>
        requires { IsPairing before.now.objects.items after.now.objects.items self.old.pairing }
        ensures { IsPairing before.now.objects.items after.now.objects.items self.new.pairing }
    {
        let (mut sources, mut targets) = (before.roots.as_slice(), after.roots.as_slice());
        while let (Some((one, sources_left)), Some((other, targets_left))) = (
            sources.split_first(),
            targets.split_first(),
        ) {
            self.offer_together(before, after, one, other)?;
            if !other.comes_before(one) {
                sources = sources_left;
            }
            if !one.comes_before(other) {
                targets = targets_left;
            }
        }
        Ok(())
    }

    /// Offers what two roots lead to, if they are of one place.
    fn offer_together(
        &mut self,
        before: &Graph,
        after: &Graph,
        one: &Root,
        other: &Root,
    ) -> Result<(), AllocError>
        requires { IsPairing before.now.objects.items after.now.objects.items self.old.pairing }
        ensures { IsPairing before.now.objects.items after.now.objects.items self.new.pairing }
    {
        if one.kind != other.kind || one.place != other.place {
            return Ok(());
        }
        self.offer(&before.objects, &after.objects, one.object, other.object)
    }

    /// Follows the references of each pair in turn, those found first before those found by them.
    fn follow_all(&mut self, before: &Graph, after: &Graph) -> Result<(), AllocError>
        requires { IsPairing before.now.objects.items after.now.objects.items self.old.pairing }
        ensures { IsPairing before.now.objects.items after.now.objects.items self.new.pairing }
    {
        // Each object waits once at most.
        for place in 0..before.objects.len() {
            let Some(i) = self.waiting.get(place).copied() else {
                break;
            };
            self.follow(before, after, i)?;
        }
        Ok(())
    }

    /// Offers what the references of an object before and of its partner lead to, in their order.
    fn follow(&mut self, before: &Graph, after: &Graph, i: u32) -> Result<(), AllocError>
        requires { IsPairing before.now.objects.items after.now.objects.items self.old.pairing }
        ensures { IsPairing before.now.objects.items after.now.objects.items self.new.pairing }
    {
        let index = i as usize;
        let Some(partner) = self.pairing.partner(index) else {
            return Ok(());
        };
        let (Some(one), Some(other)) = (before.objects.get(index), after.objects.get(partner))
        else {
            return Ok(());
        };
        let (references, targets) = (before.references_of(one), after.references_of(other));
        for (place, reference) in references.iter().enumerate() {
            let Some(target) = targets.get(place) else {
                break;
            };
            self.offer_targets(before, after, *reference, *target)?;
        }
        Ok(())
    }

    /// Offers what two references lead to, unless one of them is null.
    fn offer_targets(
        &mut self,
        before: &Graph,
        after: &Graph,
        reference: u32,
        target: u32,
    ) -> Result<(), AllocError>
        requires { IsPairing before.now.objects.items after.now.objects.items self.old.pairing }
        ensures { IsPairing before.now.objects.items after.now.objects.items self.new.pairing }
    {
        if reference == 0 || target == 0 {
            return Ok(());
        }
        self.offer(&before.objects, &after.objects, reference - 1, target - 1)
    }
}

impl Root {
    /// Whether it is of a lower kind or place. Of two roots one at most is.
    fn comes_before(&self, other: &Root) -> bool
        ensures { result ≡ comes_before self.now other.now }
    {
        self.kind < other.kind || (self.kind == other.kind && self.place < other.place)
    }
}
