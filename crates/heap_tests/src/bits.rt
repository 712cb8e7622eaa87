//! Tests of `Bits`, with an address in the first word and one in the last.
ghost use Rattle.std.specs.Prelude.{◌≡◌, IfOk, length};

use crate::checks::equal;
use heap_image::Bits;
use std::alloc::{AllocError, Global};
use std::process::Abort;
use std::test::Fail;

/// A set of three addresses, with room for those below 131.
fn three_addresses(alloc: Global) -> Result<Bits, AllocError>
    ensures { IfOk result (λ bits. length bits ≡ 3) }
{
    let mut bits = Bits::new(alloc, 130)?;
    bits.insert(3);
    bits.insert_all(&[64, 130]);
    Ok(bits)
}

/// Fails if a query of that set has another result.
fn check_queries(rt: &impl Abort, bits: &Bits)
    requires { length bits.now ≡ 3 }
{
    equal(
        rt,
        [bits.contains(3), bits.contains(4), bits.contains(1000)],
        [true, false, false],
    );
    equal(rt, bits.word(0), 8);
    equal(rt, bits.next(4), Some(64));
    equal(rt, bits.next(131), None);
    equal(rt, bits.last_below(64), Some(3));
    equal(rt, bits.next_before(4, 64), None);
    equal(rt, bits.next_absent_before(64, 70), Some(65));
    equal(rt, bits.count(3, 131), 3);
}

#[test]
fn a_set_contains_what_was_inserted(rt: HostRuntime) -> Result<(), Fail> {
    let mut bits = three_addresses(rt.alloc())?;
    check_queries(&rt, &bits);
    bits.set_word(1, 0);
    equal(&rt, bits.next(4), Some(130));
    Ok(())
}

#[test]
fn a_copy_has_the_same_addresses(rt: HostRuntime) -> Result<(), Fail> {
    let same = Bits::of(rt.alloc(), &[3, 64, 129], 130)?.copy(rt.alloc())?;
    equal(&rt, same.next(65), Some(129));
    Ok(())
}
