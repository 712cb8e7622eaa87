//! How far the reading or writing of a file is.
ghost use Rattle.std.specs.Prelude.{◌≡◌, ◌<◌, IfSome, None, Some, codes};
ghost use Rattle.command_times.specs.Transfer.{left_of, rate_of, tenths_of, transfer_text};
ghost use Rattle.command_times.specs.declared.phase.Phase.TheVariants.{Read, ReadAgain, Write};

use crate::phase::Phase;
use std::fmt;

const BYTES_IN_A_MIB: u128 = 1 << 20;

/// How far the reading or writing of a file is.
#[derive(Clone, Copy)]
pub struct Transfer {
    pub phase: Phase,
    /// The number of bytes that are read or written.
    pub done: u64,
    /// The length of the file, if it is known.
    pub whole: Option<u64>,
    /// How long it took so far, in milliseconds.
    pub took: u64,
}

impl Transfer {
    /// The bytes of a second, unless there are none or no time has passed.
    fn rate(&self) -> Option<u128>
        ensures value { result ≡ rate_of self.now.done self.now.took }
        ensures some { IfSome result (λ rate. 0 < rate) }
    {
        let rate = u128::from(self.done) * 1000 / u128::from(self.took.max(1));
        if self.took == 0 || rate == 0 {
            None
        } else {
            Some(rate)
        }
    }

    /// The seconds that the rest takes, if that is known.
    fn seconds_left(&self) -> Option<u128>
        ensures { result ≡ left_of self.now.done self.now.whole (rate_of self.now.done self.now.took) }
    {
        let whole = self.whole?;
        let rate = self.rate()?;
        Some(u128::from(whole.saturating_sub(self.done)) / rate)
    }
}

impl fmt::Display for Transfer {
    ghost use Rattle.std.specs.Prelude.{Some};
    ghost use Rattle.command_times.specs.Transfer.{transfer_text};

    ghost output = { λ transfer. Some (transfer_text transfer) };

    fn fmt<W: fmt::Write>(&self, f: &mut fmt::Formatter<W>) -> fmt::Result {
        let Transfer {
            phase,
            done,
            whole,
            ..
        } = *self;
        let amount = Amount { done, whole };
        match (self.rate(), self.seconds_left()) {
            (Some(rate), Some(left)) => {
                let mib = rate / BYTES_IN_A_MIB;
                write!(f, "{phase} {amount}, {mib} MiB a second, {left} s left")
            }
            (Some(rate), None) => {
                let mib = rate / BYTES_IN_A_MIB;
                write!(f, "{phase} {amount}, {mib} MiB a second")
            }
            (None, _) => write!(f, "{phase} {amount}"),
        }
    }
}

/// How much is done: the share of all bytes, or where their number isn't known the bytes.
#[derive(Clone, Copy)]
struct Amount {
    done: u64,
    whole: Option<u64>,
}

impl Amount {
    /// Tenths of a per cent or of a MiB, rounded down.
    fn tenths(&self) -> u128
        ensures { result ≡ tenths_of self.now.done self.now.whole }
    {
        match self.whole {
            Some(whole) => u128::from(self.done.min(whole)) * 1000 / u128::from(whole.max(1)),
            None => u128::from(self.done) * 10 / BYTES_IN_A_MIB,
        }
    }
}

impl fmt::Display for Amount {
    ghost use Rattle.std.specs.Prelude.{Some};
    ghost use Rattle.command_times.specs.Transfer.{amount_text};

    ghost output = { λ amount. Some (amount_text amount.done amount.whole) };

    fn fmt<W: fmt::Write>(&self, f: &mut fmt::Formatter<W>) -> fmt::Result {
        let tenths = self.tenths();
        let (units, tenth) = (tenths / 10, tenths % 10);
        match self.whole {
            Some(_) => write!(f, "{units}.{tenth} per cent"),
            None => write!(f, "{units}.{tenth} MiB"),
        }
    }
}

/// Lines of some transfers.
pub fn transfers_have_lines()
    ensures whole { transfer_text (record { phase = Read; done = 1073741824; whole = Some 2147483648; took = 1000 })
        ≡ codes "read 50.0 per cent, 1024 MiB a second, 1 s left" }
    ensures again { transfer_text (record { phase = ReadAgain; done = 250; whole = Some 1000; took = 0 })
        ≡ codes "read again 25.0 per cent" }
    ensures pipe { transfer_text (record { phase = Write; done = 1572864; whole = None; took = 500 })
        ≡ codes "write 1.5 MiB, 3 MiB a second" }
    ensures first { transfer_text (record { phase = Read; done = 32; whole = Some 1000; took = 0 })
        ≡ codes "read 3.2 per cent" }
    ensures slow { transfer_text (record { phase = Read; done = 1; whole = Some 3; took = 2000 })
        ≡ codes "read 33.3 per cent" }
    ensures grown { transfer_text (record { phase = Write; done = 300; whole = Some 200; took = 0 })
        ≡ codes "write 100.0 per cent" }
    ensures empty { transfer_text (record { phase = Read; done = 0; whole = Some 0; took = 7 })
        ≡ codes "read 0.0 per cent" }
{}
