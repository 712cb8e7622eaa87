//! The figures of a space.
ghost use Rattle.std.specs.Prelude.{◌≡◌, ◌<◌, ◌≤◌, IfSome, length, position, count_by, nat_lt, not, ◌==◌, drop};
ghost use Rattle.std.specs.List.{zip};
ghost use Rattle.object_pairs.specs.Figures.{figures_of, prefix_end, prefix_of, stays};

use crate::moves::Move;

/// What became of the paired objects of a space.
#[derive(Clone, Copy)]
pub struct SpaceFigures {
    /// The id of the first object of the space before the collection, in bytes.
    pub start: u64,
    /// How many paired objects the space had.
    pub paired: usize,
    /// How many of them are where they were.
    pub stayed: usize,
    /// How many are below the one that was before them.
    pub descents: usize,
    /// How many have another distance to the next object of their space than before. The last one isn't counted.
    pub holes: usize,
    /// How many stayed before the first one that moved.
    pub prefix: usize,
    /// Where that prefix ends: where the first object that moved is now, if it slid down to a place behind the prefix, else where the
    /// next object behind the prefix begins.
    pub prefix_end: u64,
}

impl SpaceFigures {
    /// The figures of a space that begins at this id, from the moves of its objects.
    pub fn of(start: u64, moves: &[Move]) -> SpaceFigures
        ensures { result ≡ figures_of start moves.now }
    {
        SpaceFigures {
            start,
            paired: moves.len(),
            stayed: stayed_of(moves),
            descents: descents_of(moves, behind_first(moves)),
            holes: holes_of(moves, behind_first(moves)),
            prefix: prefix_of(moves),
            prefix_end: prefix_end(start, moves, prefix_of(moves)),
        }
    }
}

impl Move {
    /// Whether the object is where it was.
    fn stays(&self) -> bool
        ensures { result ≡ stays self.now }
    {
        self.from == self.to
    }
}

/// All moves but the first.
fn behind_first(moves: &[Move]) -> &[Move]
    ensures { result.now ≡ drop 1 moves.now }
{
    if moves.is_empty() { moves } else { &moves[1..] }
}

/// How many objects stayed.
fn stayed_of(moves: &[Move]) -> usize
    ensures { result ≡ count_by stays moves.now }
{
    moves.iter().filter(|moved| moved.stays()).count()
}

/// How many objects are below the one that was before them. `next` has the moves but the first.
fn descents_of(moves: &[Move], next: &[Move]) -> usize
    ensures { result ≡ count_by (λ x. nat_lt x.1.to x.0.to) (zip moves.now next.now) }
{
    moves
        .iter()
        .zip(next)
        .filter(|(one, other)| other.to < one.to)
        .count()
}

/// How many objects have another distance to the next one than before. `next` has the moves but the first.
fn holes_of(moves: &[Move], next: &[Move]) -> usize
    ensures { result ≡ count_by (λ x. not (x.0.from_step == x.0.to_step)) (zip moves.now next.now) }
{
    moves
        .iter()
        .zip(next)
        .filter(|(one, _)| one.from_step != one.to_step)
        .count()
}

/// How many objects stayed before the first that moved.
fn prefix_of(moves: &[Move]) -> usize
    ensures count { result ≡ prefix_of moves.now }
    ensures within { result ≤ length moves.now }
{
    first_moved(moves).unwrap_or(moves.len())
}

/// The index of the first object that moved.
fn first_moved(moves: &[Move]) -> Option<usize>
    ensures first { result ≡ position (λ m. not (stays m)) moves.now }
    ensures within { IfSome result (λ k. k < length moves.now) }
{
    moves.iter().position(|moved| !moved.stays())
}

/// Where a prefix of `count` objects ends, in a space that begins at `start`.
fn prefix_end(start: u64, moves: &[Move], count: usize) -> u64
    requires { count ≤ length moves.now }
    ensures { result ≡ prefix_end start moves.now count }
{
    if count == 0 {
        return start;
    }
    let last = moves[count - 1];
    let end = last.to.saturating_add(last.to_step);
    if count < moves.len() {
        let next = moves[count];
        if end <= next.to && next.to <= next.from {
            return next.to;
        }
    }
    end
}
