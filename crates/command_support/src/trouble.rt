//! Failures with what is known of them: the file and the reason.
ghost use Rattle.std.specs.Prelude.{◌≡◌, None, IfErr};
ghost use Rattle.command_support.specs.Failure.{failed_device};
ghost use Rattle.image_streams.specs.declared.fault.Fault.TheVariants.{Memory};
ghost use Rattle.command_support.specs.declared.failure.Failure.TheVariants.{Fault};

pub(crate) mod failed_call;
pub(crate) mod hint;
pub(crate) mod printable;
pub(crate) mod reason;
mod shell_word;
mod unpacking;

use crate::failure::Failure;
use crate::files::content::Content;
use crate::files::file_word::{FileWord, Role};
use crate::files::named_files::NamedFiles;
use crate::files::watched::Watched;
use failed_call::{FailedCall, SystemCall};
use heap_image::{Fault, LengthCause};
use hint::Hint;
use printable::Printable;
use reason::{LineReason, Reason};
use std::alloc::AllocError;
use std::io;
use std::io::Write;
use unpacking::Unpacking;

/// A failure with the details that follow its line.
#[derive(Drop)]
pub struct Trouble {
    /// Decides the exit status and the first line on standard error.
    pub failure: Failure,
    // Roles, and no names: a lifetime would lengthen the proof of each function that may fail.
    /// The file that it is about.
    file: Option<Role>,
    /// The other file that it is about.
    other: Option<Role>,
    reason: Option<Reason>,
    hint: Option<Hint>,
    /// Further lines for `--explain`.
    explanation: Option<String>,
}

impl Trouble {
    /// A failure without details.
    pub fn new(failure: Failure) -> Trouble
        ensures { result.failure ≡ failure }
    {
        Trouble {
            failure,
            file: None,
            other: None,
            reason: None,
            hint: None,
            explanation: None,
        }
    }

    /// This call on this file failed: fault 13.
    pub fn of_call(file: FileWord<'_>, call: SystemCall, error: &io::Error) -> Trouble
        ensures { result.failure ≡ failed_device }
    {
        let failed = FailedCall::of(call, error);
        let failed = if file.is_standard() {
            failed.on_stream()
        } else {
            failed
        };
        Trouble::new(Failure::Fault(Fault::Io))
            .because(Reason::SystemCall(failed))
            .about(file)
    }

    /// Adds the file that it is about. A file that was there stays, as the other one.
    pub fn about(mut self, file: FileWord<'_>) -> Trouble
        ensures { result.failure ≡ self.failure }
    {
        self.other = self.file;
        self.file = Some(file.role);
        self
    }

    /// Adds the reason.
    pub fn because(mut self, reason: Reason) -> Trouble
        ensures { result.failure ≡ self.failure }
    {
        self.reason = Some(reason);
        self
    }

    /// Adds this file, which the failure says to be none of what is wanted, and the hint about it.
    fn about_content<F: Drop>(mut self, wanted: Content, file: &Watched<'_, F>) -> Trouble
        ensures { result.failure ≡ self.failure }
    {
        self.hint = Hint::of(wanted, file.first_bytes());
        self.about(file.word())
    }

    /// Adds lines that explain it, if there are some.
    pub fn explained(mut self, explanation: Option<String>) -> Trouble
        ensures { result.failure ≡ self.failure }
    {
        self.explanation = explanation;
        self
    }

    /// Adds this file and the call, if a call on the file failed.
    pub fn if_failed<F: Drop>(self, file: &Watched<'_, F>) -> Trouble
        ensures { result.failure ≡ self.failure }
    {
        match (self.fault(), file.failed()) {
            (Some(Fault::Io), Some(call)) => self
                .because(Reason::SystemCall(call))
                .about(file.word()),
            _ => self,
        }
    }

    /// Adds this file, if it is a fault of the image in the file, the image has a later version than wanted, or a call on
    /// the file failed.
    pub fn if_image<F: Drop>(mut self, image: &Watched<'_, F>) -> Trouble
        ensures { result.failure ≡ self.failure }
    {
        match &self.failure {
            Failure::Later { .. } => self.about(image.word()),
            Failure::Fault(Fault::Length) => {
                if let Some(cause) = LengthCause::of(&image.front()) {
                    self.reason = Some(Reason::Length(cause));
                }
                self.about(image.word())
            }
            Failure::Fault(fault) if is_of_image(*fault) => {
                self.about_content(Content::Image, image)
            }
            _ => self.if_failed(image),
        }
    }

    /// Adds the dump, if it gives no image or a call on one of these two openings of it failed.
    pub fn if_dump<F: Drop>(mut self, dump: &Watched<'_, F>, again: &Watched<'_, F>) -> Trouble
        ensures { result.failure ≡ self.failure }
    {
        match &self.failure {
            Failure::Dump(error) => {
                self.hint = Hint::of_dump(*error, dump.first_bytes());
                self.about(dump.word())
            }
            _ => self.if_failed(dump).if_failed(again),
        }
    }

    /// Adds this file, if its text is none of a heap or a call on the file failed.
    pub fn if_text<F: Drop>(self, text: &Watched<'_, F>) -> Trouble
        ensures { result.failure ≡ self.failure }
    {
        match &self.failure {
            Failure::Text(_) => self.about_content(Content::Text, text),
            _ => self.if_failed(text),
        }
    }

    /// Adds this file, if it is about a line of the schedule in it or a call on it failed, and the reason.
    pub fn if_line<F: Drop>(self, schedule: &Watched<'_, F>, reason: Option<LineReason>) -> Trouble
        ensures { result.failure ≡ self.failure }
    {
        let trouble = match self.fault() {
            Some(Fault::Schedule(_)) => self.about_content(Content::Schedule, schedule),
            _ => self.if_failed(schedule),
        };
        match reason {
            Some(reason) => trouble.because(Reason::Line(reason)),
            None => trouble,
        }
    }

    /// Writes the details: the files, by their names among these, the reason and the hint, and the lines of `--explain`.
    pub fn print_details<B: Write>(&self, named: NamedFiles<'_>, err: &mut B) -> io::Result<()> {
        print_file(named, self.other, err)?;
        print_file(named, self.file, err)?;
        if let Some(reason) = &self.reason {
            reason.print(err)?;
        }
        if let Some(hint) = &self.hint {
            print_hint(*hint, Unpacking::of(named, self.file), err)?;
        }
        match &self.explanation {
            Some(lines) => err.write_all(lines.as_bytes()),
            None => Ok(()),
        }
    }

    fn fault(&self) -> Option<Fault> {
        match &self.failure {
            Failure::Fault(fault) => Some(*fault),
            _ => None,
        }
    }
}

/// Writes the line of a hint: of a packed dump the command that reads it, if there is one.
fn print_hint<B: Write>(
    hint: Hint,
    unpacking: Option<Unpacking<'_>>,
    err: &mut B,
) -> io::Result<()> {
    match (hint, unpacking) {
        (Hint::Has(Content::Packed, Content::Dump), Some(command)) => {
            writeln!(err, "pcompact: hint {command}")
        }
        _ => writeln!(err, "pcompact: hint {hint}"),
    }
}

/// Writes the line of the file of a role, if there is one.
fn print_file<B: Write>(named: NamedFiles<'_>, role: Option<Role>, err: &mut B) -> io::Result<()> {
    match named.file(role) {
        Some(file) => {
            let name = Printable(file.name);
            writeln!(err, "pcompact: file {} {name}", file.role)
        }
        None => Ok(()),
    }
}

/// The result of a system call on this file. Fault 13 if the call failed.
pub fn on_file<T>(
    file: FileWord<'_>,
    call: SystemCall,
    outcome: io::Result<T>,
) -> Result<T, Trouble>
    ensures { IfErr result (λ trouble. trouble.failure ≡ failed_device) }
{
    match outcome {
        Ok(value) => Ok(value),
        Err(error) => Err(Trouble::of_call(file, call, &error)),
    }
}

/// Whether it is a fault of an image's bytes.
fn is_of_image(fault: Fault) -> bool {
    match fault {
        Fault::TruncatedHeader
        | Fault::Magic
        | Fault::RegionLog
        | Fault::Length
        | Fault::TruncatedBody
        | Fault::LiveOrder(_)
        | Fault::Header(_)
        | Fault::Overlap(_)
        | Fault::Reference(_, _)
        | Fault::Trailing
        | Fault::Root(_) => true,
        Fault::Memory
        | Fault::Workers
        | Fault::Io
        | Fault::Schedule(_)
        | Fault::Overwritten(_)
        | Fault::Gate => false,
    }
}

impl From<AllocError> for Trouble {
    ghost from_gives = { λ _ trouble. trouble.failure ≡ Fault Memory };

    fn from(_refused: AllocError) -> Trouble {
        Trouble::new(Failure::Fault(Fault::Memory))
    }
}

impl From<Fault> for Trouble {
    ghost from_gives = { λ fault trouble. trouble.failure ≡ Fault fault };

    fn from(fault: Fault) -> Trouble {
        Trouble::new(Failure::Fault(fault))
    }
}
