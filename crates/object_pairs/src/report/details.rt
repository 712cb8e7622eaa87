//! Lists of what a comparison counts.
use crate::comparison::{Comparison, Verdict};
use crate::graph::{Graph, Object};
use crate::moves::{Move, moves_in};
use crate::paired::Paired;
use crate::paired::conflict::Conflict;
use crate::spaces::starts_of;
use std::alloc::{AllocError, Global};

/// How many of each kind are listed.
const MOST: usize = 10;

/// How many spaces are looked at for what is unpaired in their prefixes.
const MOST_SPACES: usize = 16;

/// What is wrong between two neighbours.
#[derive(Clone, Copy)]
enum Breach {
    Disorder,
    Hole,
}

/// Lists under way.
#[derive(Drop)]
struct Details<'a> {
    alloc: Global,
    paired: &'a Paired<'a>,
    names: &'a [String],
    text: String,
    /// How many more of the current list fit.
    left: usize,
}

/// The lists behind a report: what is unpaired in the prefixes, and the first objects out of order, unless the heaps can't be compared;
/// and, if `explain`, the first holes, changed data and conflicts.
pub(super) fn details_of(
    alloc: Global,
    paired: &Paired<'_>,
    comparison: &Comparison,
    names: &[String],
    explain: bool,
) -> Result<String, AllocError> {
    let mut details = Details {
        alloc,
        paired,
        names,
        text: String::new(alloc),
        left: 0,
    };
    if comparison.verdict() != Verdict::Incomparable {
        details.push_unpaired(comparison)?;
        details.push_moves(Breach::Disorder)?;
    }
    if explain {
        details.push_moves(Breach::Hole)?;
        details.push_changed()?;
        details.push_conflicts()?;
    }
    let Details { text, .. } = details;
    Ok(text)
}

impl Details<'_> {
    /// Whether the current list has room for a further line.
    fn has_room(&mut self) -> bool {
        let has_room = self.left > 0;
        self.left = self.left.saturating_sub(1);
        has_room
    }

    /// Appends what is unpaired in the prefixes of the first spaces, with the most frequent classes.
    fn push_unpaired(&mut self, comparison: &Comparison) -> Result<(), AllocError> {
        for (index, space) in comparison.spaces.iter().take(MOST_SPACES).enumerate() {
            if space.prefix > 0 {
                let number = index.saturating_add(1);
                self.push_unpaired_in(number, space.start, space.prefix_end)?;
            }
        }
        Ok(())
    }

    /// Appends what is unpaired after the collection from one address up to another, in the prefix of a space.
    fn push_unpaired_in(&mut self, number: usize, start: u64, end: u64) -> Result<(), AllocError> {
        let mut counts = vec![in self.alloc; 0u64; self.names.len()]?;
        let mut count = 0u64;
        let objects = &self.paired.after.objects;
        let first = objects.partition_point(|object| object.id < start);
        for (index, object) in objects.iter().enumerate().skip(first) {
            if object.id >= end {
                break;
            }
            if self.paired.pairing.has_source(index) {
                continue;
            }
            count = count.saturating_add(1);
            if let Some(of_class) = counts.get_mut(object.class as usize) {
                *of_class = of_class.saturating_add(1);
            }
        }
        write!(
            self.text,
            "unpaired in the prefix of space {number}: {count}"
        )?;
        self.push_most(&mut counts)
    }

    /// Appends the three classes with the largest of these counts, and ends the line.
    fn push_most(&mut self, counts: &mut [u64]) -> Result<(), AllocError> {
        for _ in 0..3 {
            let mut most = 0;
            for (class, count) in counts.iter().enumerate() {
                if *count > counts.get(most).copied().unwrap_or(0) {
                    most = class;
                }
            }
            let Some(count) = counts.get_mut(most) else {
                break;
            };
            if *count > 0 {
                let name = class_name(self.names, most);
                write!(self.text, ", {count} {name}")?;
                *count = 0;
            }
        }
        self.text.push_str("\n")
    }

    /// Appends the first neighbours in each space between which this is wrong.
    fn push_moves(&mut self, breach: Breach) -> Result<(), AllocError> {
        self.left = MOST;
        let count = self.paired.before.objects.len();
        let starts = starts_of(self.alloc, &self.paired.before.objects)?;
        for (index, start) in starts.iter().enumerate() {
            let end = starts
                .get(index.saturating_add(1))
                .copied()
                .unwrap_or(count);
            let moves = moves_in(self.alloc, self.paired, *start, end)?;
            self.push_neighbours(&moves, breach)?;
        }
        Ok(())
    }

    /// Appends the neighbours among these between which this is wrong.
    fn push_neighbours(&mut self, moves: &[Move], breach: Breach) -> Result<(), AllocError> {
        for (one, next) in moves.iter().zip(moves.iter().skip(1)) {
            let is_wrong = match breach {
                Breach::Disorder => next.to < one.to,
                Breach::Hole => one.from_step != one.to_step,
            };
            if is_wrong && self.has_room() {
                self.push_pair(*one, *next, breach)?;
            }
        }
        Ok(())
    }

    /// Appends two neighbours between which this is wrong.
    fn push_pair(&mut self, one: Move, next: Move, breach: Breach) -> Result<(), AllocError> {
        let (was, is) = (one.from_step, one.to_step);
        match breach {
            Breach::Disorder => {
                self.text.push_str("out of order: ")?;
                self.push_move(next.from, next.to)?;
                self.text.push_str(" is below ")?;
                self.push_move(one.from, one.to)?;
                self.text.push_str(", which was before it\n")
            }
            Breach::Hole => {
                self.text.push_str("hole: behind ")?;
                self.push_move(one.from, one.to)?;
                writeln!(
                    self.text,
                    " the next object is {is} bytes further on, where it was {was}"
                )
            }
        }
    }

    /// Appends the first pairs with other data.
    fn push_changed(&mut self) -> Result<(), AllocError> {
        self.left = MOST;
        for index in 0..self.paired.before.objects.len() {
            if let Some((one, other)) = self.pair_at(index) {
                if one.checksum != other.checksum && self.has_room() {
                    self.text.push_str("changed: ")?;
                    self.push_move(one.id, other.id)?;
                    self.text.push_str("\n")?;
                }
            }
        }
        Ok(())
    }

    /// The object before with this index and its partner.
    fn pair_at(&self, index: usize) -> Option<(Object, Object)> {
        let partner = self.paired.pairing.partner(index)?;
        let one = self.paired.before.objects.get(index)?;
        let other = self.paired.after.objects.get(partner)?;
        Some((*one, *other))
    }

    /// Appends the first references in conflict.
    fn push_conflicts(&mut self) -> Result<(), AllocError> {
        self.left = MOST;
        for index in 0..self.paired.before.objects.len() {
            if let Some((one, other)) = self.pair_at(index) {
                self.push_conflicts_of(one, other)?;
            }
        }
        Ok(())
    }

    /// Appends the references of an object that are in conflict with those of its partner.
    fn push_conflicts_of(&mut self, one: Object, other: Object) -> Result<(), AllocError> {
        let references = self.paired.before.references_of(&one);
        let targets = self.paired.after.references_of(&other);
        for (place, (reference, target)) in references.iter().zip(targets).enumerate() {
            if self.are_in_conflict(*reference, *target) && self.has_room() {
                write!(self.text, "conflict: reference {place} of ")?;
                self.push_move(one.id, other.id)?;
                self.push_lead(*reference, *target)?;
            }
        }
        Ok(())
    }

    /// Whether a reference before, and the one at its place after, are in any conflict.
    fn are_in_conflict(&self, reference: u32, target: u32) -> bool {
        let partners = self.paired.pairing.partners.as_slice();
        Conflict::Cleared.has(partners, reference, target)
            || Conflict::Filled.has(partners, reference, target)
            || Conflict::Elsewhere.has(partners, reference, target)
    }

    /// Appends where references led before and lead after.
    fn push_lead(&mut self, reference: u32, target: u32) -> Result<(), AllocError> {
        self.text.push_str(" led to ")?;
        self.push_target(self.paired.before, reference)?;
        self.text.push_str(" and leads to ")?;
        self.push_target(self.paired.after, target)?;
        self.text.push_str("\n")
    }

    /// Appends the object to which a reference leads.
    fn push_target(&mut self, graph: &Graph, reference: u32) -> Result<(), AllocError> {
        let target = match reference.checked_sub(1) {
            Some(index) => graph.objects.get(index as usize),
            None => None,
        };
        match target {
            Some(object) => {
                let (name, id) = (class_name(self.names, object.class as usize), object.id);
                write!(self.text, "{name} @{id:x}")
            }
            None => self.text.push_str("null"),
        }
    }

    /// Appends an object with its ids before and after.
    fn push_move(&mut self, from: u64, to: u64) -> Result<(), AllocError> {
        let objects = &self.paired.before.objects;
        let class = match objects.binary_search_by_key(&from, |object| object.id) {
            Ok(index) => objects.get(index).map_or(0, |object| object.class),
            Err(_) => 0,
        };
        let name = class_name(self.names, class as usize);
        write!(self.text, "{name} @{from:x} -> @{to:x}")
    }
}

/// The name of the class with this number.
fn class_name(names: &[String], class: usize) -> &str {
    match names.get(class) {
        Some(name) => name.as_str(),
        None => "?",
    }
}
