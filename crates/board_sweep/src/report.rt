//! The text that `board` prints.
ghost use Rattle.std.specs.Prelude.{◌≡◌, ◌+◌, ◌≤◌, IfOk, string_bytes, length};
ghost use Rattle.board_sweep.specs.Report.{lines_of};
ghost use Rattle.board_sweep.specs.Tallies.{claims_in, completions_in};

use crate::tally::Tally;
use std::alloc::{AllocError, Global};

/// A line for each of the first `regions` regions, with the sums of both workers' claims and completions.
pub fn lines(
    alloc: Global,
    regions: u32,
    first: &[Tally],
    second: &[Tally],
) -> Result<String, AllocError>
    requires first { regions ≤ length first.now }
    requires second { regions ≤ length second.now }
    ensures { IfOk result (λ text. string_bytes text ≡ lines_of regions
        (λ r. claims_in first.now r + claims_in second.now r)
        (λ r. completions_in first.now r + completions_in second.now r)) }
{
    let mut text = String::new(alloc);
    for region in 0..regions {
        let one = first[region as usize];
        let other = second[region as usize];
        let claims = sum(one.claims, other.claims);
        let completions = sum(one.completions, other.completions);
        writeln!(
            text,
            "region {region} claims {claims} completions {completions}"
        )?;
    }
    Ok(text)
}

fn sum(one: u32, other: u32) -> u64
    ensures { result ≡ one + other }
{
    u64::from(one) + u64::from(other)
}
