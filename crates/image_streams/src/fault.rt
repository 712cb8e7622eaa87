//! The numbered errors of all crates.
ghost use Rattle.std.specs.Prelude.{◌≡◌};
ghost use Rattle.image_streams.specs.declared.fault.Fault.TheVariants.{Memory};

use std::alloc::{AllocError, AllocFailed};
use std::error::Error;
use std::fmt;

/// An error of an image, of a schedule, or of a collection. Each message begins with the number of the fault.
///
/// Faults 1 to 10 and 17 are faults of an image's bytes, tested in the order 1 to 5, 17, 6 to 10. Fault 6 comes in
/// version 1 only, and 17 in versions 2 and 3 only.
#[derive(Debug, Clone, Copy, PartialEq, Eq)]
pub enum Fault {
    /// There are fewer than 32 bytes.
    TruncatedHeader,
    /// The first 8 bytes are none of `PCHEAP01`, `PCHEAP02` and `PCHEAP03`.
    Magic,
    /// The region log is not 3 to 16, or in version 3 to 20.
    RegionLog,
    /// The number of words is 0 or not a multiple of the words of a region, or there are more words or regions than the
    /// version allows, or more live addresses or roots than words.
    Length,
    /// There are fewer bytes than the first 32 call for.
    TruncatedBody,
    /// This is the first index whose live address is outside the heap or not above the one before it.
    LiveOrder(u32),
    /// This is the first live address without the header of an object that fits. In versions 2 and 3, here and in faults
    /// 8 and 9, live means reachable from the roots.
    Header(u64),
    /// This is the address of the first live object that begins before the end of the one before it.
    Overlap(u64),
    /// This is the address of the first live object with a reference that is neither null nor to a live object, and the
    /// first field with such a reference.
    Reference(u64, u32),
    /// There are bytes after the live list or the roots.
    Trailing,
    /// Memory ran out.
    Memory,
    /// The number of workers is not 1 to 64.
    Workers,
    /// A read, a write or an opening failed, or a write took no byte.
    Io,
    /// This line of a schedule, counted from 1, is malformed, not allowed, missing, or has another reply.
    Schedule(u64),
    /// A region was written while the schedule says otherwise.
    Overwritten(u32),
    /// The gate refused a fill.
    Gate,
    /// This is the first index of a root that is above the number of words.
    Root(u32),
}

impl fmt::Display for Fault {
    fn fmt<W: fmt::Write>(&self, f: &mut fmt::Formatter<W>) -> fmt::Result {
        f.write_str(match self {
            Fault::TruncatedHeader => "1 truncated header",
            Fault::Magic => "2 magic",
            Fault::RegionLog => "3 region log",
            Fault::Length => "4 length",
            Fault::TruncatedBody => "5 truncated body",
            Fault::LiveOrder(index) => return write!(f, "6 live order at index {index}"),
            Fault::Header(address) => return write!(f, "7 header at {address}"),
            Fault::Overlap(address) => return write!(f, "8 overlap at {address}"),
            Fault::Reference(address, field) => return write!(
                f,
                "9 reference at {address} field {field}"
            ),
            Fault::Trailing => "10 trailing bytes",
            Fault::Memory => "11 memory",
            Fault::Workers => "12 workers",
            Fault::Io => "13 input or output",
            Fault::Schedule(line) => return write!(f, "14 schedule line {line}"),
            Fault::Overwritten(region) => return write!(f, "15 overwritten region {region}"),
            Fault::Gate => "16 gate",
            Fault::Root(index) => return write!(f, "17 root at index {index}"),
        })
    }
}

impl Error for Fault {}

impl From<AllocError> for Fault {
    ghost from_gives = { λ _ fault. fault ≡ Memory };

    fn from(_refused: AllocError) -> Fault {
        Fault::Memory
    }
}

impl<T: Drop> From<AllocFailed<T>> for Fault {
    ghost from_gives = { λ _ fault. fault ≡ Memory };

    fn from(_refused: AllocFailed<T>) -> Fault {
        Fault::Memory
    }
}
