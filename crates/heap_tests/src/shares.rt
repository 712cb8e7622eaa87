//! Tests of `read_shares`.
ghost use Rattle.std.specs.Prelude.{◌≡◌};

use crate::checks::equal;
use read_shares::{ReadShare, share_out, unite};
use std::alloc::Global;
use std::test::Fail;
use std::thread::{Threads, join};

#[derive(Drop)]
struct Reading {
    begins: u64,
    words: [u64; 2],
}

#[test]
fn a_value_is_read_by_each_share_and_comes_back(rt: HostRuntime) -> Result<(), Fail> {
    let reading = Reading {
        begins: 3,
        words: [5, 8],
    };
    let (deed, mut rest) = share_out(Box::new(rt.alloc(), reading)?);
    let first = rest.split_one();
    let mut second = rest.split_one();
    equal(
        &rt,
        (
            rest.get().begins,
            first.get().words[0],
            second.get().words[1],
        ),
        (3, 5, 8),
    );
    second.join(first);
    rest.join(second);
    let whole = unite(deed, rest);
    equal(&rt, (whole.begins, whole.words), (3, [5, 8]));
    Ok(())
}

/// What is read by a share, and the share again.
fn read(share: ReadShare<u64>) -> (u64, ReadShare<u64>)
    ensures value { result.0 ≡ share.value }
    ensures share { result.1 ≡ share }
{
    (*share.get(), share)
}

/// What two threads read at the same time, and the value, which is whole again.
fn read_by_two(
    threads: &(impl Threads + Sync),
    whole: Box<u64, Global>,
) -> (u64, u64, Box<u64, Global>)
    ensures read { (result.0 ≡ whole.value) × (result.1 ≡ whole.value) }
    ensures back { result.2.value ≡ whole.value }
{
    let (deed, mut rest) = share_out(whole);
    let share = rest.split_one();
    let ((a, mut rest), (b, share)) = join(
        threads,
        || -> (u64, ReadShare<u64>)
            ensures { (result.0 ≡ rest.value) × (result.1 ≡ rest) }
        { read(rest) },
        || -> (u64, ReadShare<u64>)
            ensures { (result.0 ≡ share.value) × (result.1 ≡ share) }
        { read(share) },
    );
    rest.join(share);
    (a, b, unite(deed, rest))
}

#[test]
fn two_threads_read_a_value(rt: HostRuntime) -> Result<(), Fail> {
    let (a, b, whole) = read_by_two(&rt, Box::new(rt.alloc(), 7u64)?);
    equal(&rt, (a, b, *whole), (7, 7, 7));
    Ok(())
}
