//! Where the objects of a space were, and where they are.
ghost use Rattle.std.specs.Prelude.{◌≡◌, ◌<◌, ◌+◌, ◌^◌, ◌++◌, IfOk, OnOk, slice_index};
ghost use Rattle.std.specs.Option.{option_to_list};
ghost use Rattle.object_pairs.specs.Moves.{move_of, move_to, moves_in, step_at};

use crate::graph::{Object, id_at};
use crate::paired::Paired;
use crate::spaces::begins;
use std::alloc::{AllocError, Global};

/// A paired object before and after the collection.
#[derive(Clone, Copy)]
pub struct Move {
    /// Its id before, in bytes.
    pub from: u64,
    /// Its id after.
    pub to: u64,
    /// The distance to the next object of its space before, or 0 at the end.
    pub from_step: u64,
    /// The distance to the next object of its space after, or 0 at the end.
    pub to_step: u64,
}

/// The moves of the paired objects before with indexes from `first` up to `end`.
pub fn moves_in(
    alloc: Global,
    paired: &Paired<'_>,
    first: usize,
    end: usize,
) -> Result<Vec<Move>, AllocError>
    ensures { IfOk result (λ moves. moves.items ≡ moves_in paired.now.before.now.objects.items paired.now.after.now.objects.items
        paired.now.pairing.now.partners.items first end) }
{
    let mut moves = Vec::new(alloc);
    for index in first..end {
        push_some(&mut moves, move_of(paired, index))?;
    }
    Ok(moves)
}

/// Appends a move, if there is one.
fn push_some(moves: &mut Vec<Move>, moved: Option<Move>) -> Result<(), AllocError>
    ensures { OnOk result (moves.new.items ≡ moves.old.items ++ option_to_list moved) }
{
    if let Some(moved) = moved {
        moves.push(moved)?;
    }
    Ok(())
}

/// The move of the object before with this index, if it has a partner.
fn move_of(paired: &Paired<'_>, index: usize) -> Option<Move>
    requires { index + 1 < 2 ^ 64 }
    ensures { result ≡ move_of paired.now.before.now.objects.items paired.now.after.now.objects.items
        paired.now.pairing.now.partners.items index }
{
    let partner = number_at(&paired.pairing.partners, index);
    if partner == 0 {
        return None;
    }
    Some(move_to(
        &paired.before.objects,
        &paired.after.objects,
        index,
        partner as usize - 1,
    ))
}

/// The move of the object before with one index to the object after with another.
fn move_to(before: &[Object], after: &[Object], index: usize, place: usize) -> Move
    requires index { index + 1 < 2 ^ 64 }
    requires place { place + 1 < 2 ^ 64 }
    ensures { result ≡ move_to before.now after.now index place }
{
    Move {
        from: id_at(before, index),
        to: id_at(after, place),
        from_step: step_at(before, index),
        to_step: step_at(after, place),
    }
}

/// The distance from an object to the next one of its space, or 0 from the last one.
fn step_at(objects: &[Object], index: usize) -> u64
    requires { index + 1 < 2 ^ 64 }
    ensures { result ≡ step_at objects.now index }
{
    if begins(objects, index + 1) {
        return 0;
    }
    id_at(objects, index + 1).saturating_sub(id_at(objects, index))
}

/// The number with this index, or 0 if there is none.
fn number_at(numbers: &[u32], index: usize) -> u32
    ensures { result ≡ slice_index numbers.now index }
{
    if index < numbers.len() {
        numbers[index]
    } else {
        0
    }
}
