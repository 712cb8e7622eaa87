//! Tests of `box_row`.
ghost use Rattle.std.specs.Prelude.{◌≡◌, ◌∷◌, [], IfOk, IfSome};
ghost use Rattle.box_row.specs.Rows.{items};

use crate::checks::{equal, equal_words};
use box_row::Row;
use read_shares::{share_out, unite};
use std::alloc::{AllocError, Global};
use std::test::Fail;

/// A row of three values.
fn three(alloc: Global, a: u64, b: u64, c: u64) -> Result<Row<u64>, AllocError>
    ensures values { IfOk result (λ row. items row ≡ a ∷ b ∷ c ∷ []) }
    ensures count { IfOk result (λ row. row.count ≡ 3) }
{
    let mut list = Vec::with_capacity(alloc, 3)?;
    list.push(a)?;
    list.push(b)?;
    list.push(c)?;
    match Row::of(alloc, list) {
        Ok(row) => Ok(row),
        Err(_) => Err(AllocError),
    }
}

/// Writes the last value while all three are out. The second is read by a share meanwhile.
fn with_last(mut row: Row<u64>, last: u64) -> Option<(u64, Vec<u64>)>
    requires values { items row ≡ 5 ∷ 8 ∷ 13 ∷ [] }
    requires count { row.count ≡ 3 }
    ensures read { IfSome result (λ both. both.0 ≡ 8) }
    ensures values { IfSome result (λ both. both.1.items ≡ 5 ∷ 8 ∷ last ∷ []) }
{
    let mut third = row.pop()?;
    let (deed, share) = share_out(row.pop()?);
    let first = row.pop()?;
    *third = last;
    let read = *share.get();
    row.push(first);
    row.push(unite(deed, share));
    row.push(third);
    Some((read, row.into_values()))
}

#[test]
fn values_are_written_in_their_places_and_come_back(rt: HostRuntime) -> Result<(), Fail> {
    let row = three(rt.alloc(), 5, 8, 13)?;
    let (read, list) = with_last(row, 21).expect(&rt, "the row has three values");
    equal(&rt, read, 8);
    equal_words(&rt, list.as_slice(), &[5, 8, 21]);
    Ok(())
}

#[test]
fn a_row_of_nothing_gives_nothing_back(rt: HostRuntime) -> Result<(), Fail> {
    let none: Vec<u64> = Vec::new(rt.alloc());
    let Ok(row) = Row::of(rt.alloc(), none) else {
        return Ok(());
    };
    equal(&rt, row.into_values().len(), 0);
    Ok(())
}

#[test]
fn a_box_outlives_the_row_that_was_dropped(rt: HostRuntime) -> Result<(), Fail> {
    let mut row = three(rt.alloc(), 5, 8, 13)?;
    let last = row.pop().expect(&rt, "the row has three values");
    drop(row);
    equal(&rt, *last, 13);
    drop(three(rt.alloc(), 1, 2, 3)?);
    equal(&rt, *last, 13);
    Ok(())
}
