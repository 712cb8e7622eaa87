//! The files that several commands open together, and the end of a command that wrote one. A file that can't be opened is
//! fault 13.
ghost use Rattle.std.specs.Prelude.{◌≡◌, ◌≢◌, IfOk, OnOk, string_bytes};

use crate::file_target::FileTarget;
use crate::output::Output;
use crate::system_file::SystemFile;
use crate::work_done::WorkDone;
use command_line::Shape;
use command_support::{Failure, FileId, FileWord, Role, Trouble, Watched};
use std::alloc::{AllocError, Global};
use std::fs::OpenFile;
use std::rt::Files;

/// A file to read, open, and one to write.
type InputAndTarget<'a, F> = (Watched<'a, F>, FileTarget<'a, F>);

/// Opens the image of this name, to read it with this shape.
///
/// Fault 13 if it can't be opened.
pub fn open_image<'a, H: Files>(
    host: &H,
    name: &'a str,
    shape: Shape,
) -> Result<Watched<'a, H::File>, Trouble> {
    let image = Watched::open(host, FileWord::new(Role::Image, name))?;
    Ok(image.with_shape(shape))
}

/// Opens a file for its second reading.
///
/// Fault 13 if it can't be opened.
pub fn open_again<'a, H: Files>(
    host: &H,
    file: FileWord<'a>,
) -> Result<Watched<'a, H::File>, Trouble>
where
    H::File: SystemFile,
{
    let again = Watched::open(host, file)?;
    again.file().read_again();
    Ok(again)
}

/// Opens a file to read, and finds one to write. They may be one file only with `atomic`.
pub fn input_and_target<'a, H: Files + AllocGlobal>(
    host: &H,
    read: FileWord<'a>,
    written: FileWord<'a>,
    atomic: bool,
) -> Result<InputAndTarget<'a, H::File>, Trouble> {
    if !atomic {
        output_must_differ(host.alloc(), read, written)?;
    }
    let read = Watched::open(host, read)?;
    let target = target_beside(host, &read, written, atomic)?;
    Ok((read, target))
}

/// Opens the image of this name to read it, and finds the file of this name to write. They may be one file only with `atomic`.
pub fn image_and_out<'a, H: Files + AllocGlobal>(
    host: &H,
    image: &'a str,
    out: &'a str,
    atomic: bool,
) -> Result<InputAndTarget<'a, H::File>, Trouble> {
    let image = FileWord::new(Role::Image, image);
    input_and_target(host, image, FileWord::new(Role::Out, out), atomic)
}

/// Opens two files to read. Standard input can't be both.
pub fn two_inputs<'a, H: Files + AllocGlobal>(
    host: &H,
    one: FileWord<'a>,
    other: FileWord<'a>,
) -> Result<(Watched<'a, H::File>, Watched<'a, H::File>), Trouble> {
    if one.is_standard() && other.is_standard() {
        return Err(same_file(host.alloc(), one, other)?);
    }
    let one = Watched::open(host, one)?;
    let other = Watched::open(host, other)?;
    Ok((one, other))
}

/// Opens two files to read, which must not be one file.
pub fn two_different_inputs<'a, H: Files + AllocGlobal>(
    host: &H,
    one: FileWord<'a>,
    other: FileWord<'a>,
) -> Result<(Watched<'a, H::File>, Watched<'a, H::File>), Trouble> {
    must_differ(host.alloc(), one, other)?;
    let (one, other) = two_inputs(host, one, other)?;
    must_be_two(host.alloc(), &one, &other)?;
    Ok((one, other))
}

/// Refuses two open files that are one.
fn must_be_two<'a, F: OpenFile + Drop>(
    alloc: Global,
    one: &Watched<'a, F>,
    other: &Watched<'a, F>,
) -> Result<(), Trouble> {
    if one.id()?.is_same(other.id()?) {
        return Err(same_file(alloc, one.word(), other.word())?);
    }
    Ok(())
}

/// Finds the file to write beside this one that is read. They may be one file only with `atomic`.
pub fn target_beside<'a, H: Files + AllocGlobal>(
    host: &H,
    read: &Watched<'a, H::File>,
    out: FileWord<'a>,
    atomic: bool,
) -> Result<FileTarget<'a, H::File>, Trouble> {
    if atomic {
        FileTarget::find(host, out, read.writing(atomic)?)
    } else {
        other_target(host, read, out, atomic)
    }
}

/// Finds a file to write that must have neither the name nor the place of this one that is read.
pub fn different_target<'a, H: Files + AllocGlobal>(
    host: &H,
    read: &Watched<'a, H::File>,
    out: FileWord<'a>,
    atomic: bool,
) -> Result<FileTarget<'a, H::File>, Trouble> {
    output_must_differ(host.alloc(), read.word(), out)?;
    other_target(host, read, out, atomic)
}

/// Finds a file to write that must not be this one that is read.
pub fn other_target<'a, H: Files + AllocGlobal>(
    host: &H,
    read: &Watched<'a, H::File>,
    out: FileWord<'a>,
    atomic: bool,
) -> Result<FileTarget<'a, H::File>, Trouble> {
    let (id, writing) = (read.id()?, read.writing(atomic)?);
    let out = FileTarget::find(host, out, writing)?;
    reject_same_file(host, out, read.word(), id)
}

/// Refuses a file to write that is this one that is read, and leaves it unchanged.
pub fn reject_same_file<'a, H: Files + AllocGlobal>(
    host: &H,
    found: FileTarget<'a, H::File>,
    read: FileWord<'a>,
    id: FileId,
) -> Result<FileTarget<'a, H::File>, Trouble> {
    if found.is(id) {
        let same = same_file(host.alloc(), read, found.word());
        found.leave(host);
        return Err(same?);
    }
    Ok(found.beside_input(id))
}

/// Refuses two files of one command that have one name.
pub fn must_differ<'a>(alloc: Global, one: FileWord<'a>, other: FileWord<'a>) -> Result<(), Trouble>
    ensures { OnOk result (one.entry.name.now ≢ other.entry.name.now) }
{
    if one.name == other.name {
        return Err(same_file(alloc, one, other)?);
    }
    Ok(())
}

/// Refuses a file to write that has the name of a file to read. Standard input and standard output have one name.
pub fn output_must_differ<'a>(
    alloc: Global,
    read: FileWord<'a>,
    written: FileWord<'a>,
) -> Result<(), Trouble> {
    if read.is_standard() {
        return Ok(());
    }
    must_differ(alloc, read, written)
}

/// The failure of two words of one command that name one file.
pub fn same_file<'a>(
    alloc: Global,
    one: FileWord<'a>,
    other: FileWord<'a>,
) -> Result<Trouble, AllocError> {
    let same = Trouble::new(Failure::usage(alloc, "pcompact: same file\n")?);
    Ok(same.about(one).about(other))
}

/// The failure of a file that must be a regular one and isn't.
pub fn not_regular(alloc: Global, file: FileWord<'_>) -> Result<Trouble, AllocError> {
    Ok(Trouble::new(Failure::usage(alloc, "pcompact: not a regular file\n")?).about(file))
}

/// Finishes the file that a command has written. The command prints this line.
pub fn ended<'a, H: Files>(
    host: &H,
    line: String,
    out: Output<'a, H::File>,
) -> Result<WorkDone<'a>, Trouble>
where
    H::File: SystemFile,
    ensures { IfOk result (λ done. done.text.items ≡ string_bytes line) }
{
    Ok(WorkDone {
        text: line.into_bytes(),
        out: out.finish(host)?,
        schedule: None,
        stats: None,
        room: None,
        status: 0,
    })
}

/// Finishes the two files that a command has written. The command prints this line.
pub fn both_ended<'a, H: Files>(
    host: &H,
    line: String,
    out: Output<'a, H::File>,
    schedule: Output<'a, H::File>,
) -> Result<WorkDone<'a>, Trouble>
where
    H::File: SystemFile,
    ensures { IfOk result (λ done. done.text.items ≡ string_bytes line) }
{
    let mut done = match ended(host, line, out) {
        Ok(done) => done,
        Err(trouble) => return Err(schedule.abandon_with(host, trouble)),
    };
    match schedule.finish(host) {
        Ok(schedule) => {
            done.schedule = schedule;
            Ok(done)
        }
        Err(trouble) => {
            done.remove(host);
            Err(trouble)
        }
    }
}
