//! Reasons of faults.
use super::failed_call::FailedCall;
use heap_image::LengthCause;
use history::LineCause;
use std::io::Write;
use std::{fmt, io};

/// What is known of a fault beyond its text.
#[derive(Clone, Copy)]
pub enum Reason {
    /// Fault 4: which of its conditions holds.
    Length(LengthCause),
    /// Fault 13: the system call that failed.
    SystemCall(FailedCall),
    /// Fault 13: the write to standard output that failed.
    Output(FailedCall),
    /// Fault 14: why the line is refused.
    Line(LineReason),
}

/// Why a line of a schedule is refused.
#[derive(Clone, Copy)]
pub enum LineReason {
    /// It isn't a schedule's line.
    Malformed,
    /// The replay refuses it.
    Refused(LineCause),
}

impl Reason {
    /// Writes its lines, one for each fact.
    pub fn print<B: Write>(&self, err: &mut B) -> io::Result<()> {
        match self {
            Reason::Length(cause) => writeln!(err, "pcompact: reason {cause}"),
            Reason::SystemCall(failed) => failed.print(err),
            Reason::Output(failed) => {
                writeln!(err, "pcompact: standard output")?;
                failed.print(err)
            }
            Reason::Line(reason) => {
                writeln!(err, "pcompact: reason {reason}")?;
                match reason {
                    LineReason::Refused(LineCause::OtherReply(reply)) => {
                        writeln!(err, "pcompact: reply {reply}")
                    }
                    _ => Ok(()),
                }
            }
        }
    }
}

impl fmt::Display for LineReason {
    fn fmt<W: fmt::Write>(&self, f: &mut fmt::Formatter<W>) -> fmt::Result {
        f.write_str(match self {
            LineReason::Malformed => "the line is malformed",
            LineReason::Refused(LineCause::NotAllowed) => "the event is not allowed",
            LineReason::Refused(LineCause::OtherReply(_)) => "the reply is another",
        })
    }
}
