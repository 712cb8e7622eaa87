//! Numbers with one digit after the point, rounded as `--stats` rounds them.
use std::alloc::AllocError;
use std::fmt;

const WORDS_IN_A_KIB: u64 = 128;

pub(crate) const WORDS_IN_A_MIB: u64 = 131_072;

/// The first address that is labelled in MiB. Those below it are labelled in KiB.
const FIRST_IN_MIB: u64 = 10 * WORDS_IN_A_MIB;

/// A number of tenths.
#[derive(Clone, Copy)]
pub(crate) struct Tenths {
    count: u64,
}

impl Tenths {
    /// How often a unit is in an amount, rounded. A unit of 0 counts as 1.
    pub(crate) fn of(amount: u64, unit: u64) -> Tenths {
        let tenths = amount.saturating_mul(10).saturating_add(unit / 2);
        Tenths {
            count: tenths / unit.max(1),
        }
    }
}

impl fmt::Display for Tenths {
    fn fmt<W: fmt::Write>(&self, f: &mut fmt::Formatter<W>) -> fmt::Result {
        write!(f, "{}.{}", self.count / 10, self.count % 10)
    }
}

/// Writes the label of an address, which is in words.
pub(crate) fn write_label(text: &mut String, address: u64) -> Result<(), AllocError> {
    let (unit, name) = if address < FIRST_IN_MIB {
        (WORDS_IN_A_KIB, "KiB")
    } else {
        (WORDS_IN_A_MIB, "MiB")
    };
    write!(text, "{} {name}", Tenths::of(address, unit))
}

/// The largest number of digits before the point that labels of addresses up to this one have.
pub(crate) fn label_digits(address: u64) -> u64 {
    digits(if address < FIRST_IN_MIB {
        address / WORDS_IN_A_KIB
    } else {
        (address / WORDS_IN_A_MIB).max(FIRST_IN_MIB / WORDS_IN_A_KIB)
    })
}

/// The number of digits of a number.
pub(crate) fn digits(number: u64) -> u64 {
    u64::from(number.checked_ilog10().unwrap_or(0)).saturating_add(1)
}
