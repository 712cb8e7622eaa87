//! The end of an import: its files.
ghost use Rattle.std.specs.Prelude.{◌≡◌, IfOk, string_bytes};

use super::ImportMade;
use super::object_list::give_list;
use command_files::{FileTarget, Late, Output, SystemFile, WorkDone, both_ended};
use command_support::{Trouble, Watched};
use heap_dump::ListedImport;
use heap_image::ToWrite;
use std::io::Write;
use std::rt::Files;

/// Writes the list of objects, if there is to be one, and finishes both files.
pub(crate) fn finished<'a, H: Files + AllocGlobal>(
    host: &H,
    made: ImportMade,
    image: Late<'a, '_, H>,
    list: Option<FileTarget<'a, H::File>>,
) -> Result<WorkDone<'a>, Trouble>
where
    H::File: SystemFile,
    ensures { IfOk result (λ done. done.text.items ≡ string_bytes made.text) }
{
    match list {
        None => image.ended(made.text),
        Some(list) => finished_with_list(host, made, image, list),
    }
}

/// Writes the list of objects, and finishes both files.
fn finished_with_list<'a, H: Files + AllocGlobal>(
    host: &H,
    made: ImportMade,
    image: Late<'a, '_, H>,
    list: FileTarget<'a, H::File>,
) -> Result<WorkDone<'a>, Trouble>
where
    H::File: SystemFile,
    ensures { IfOk result (λ done. done.text.items ≡ string_bytes made.text) }
{
    let (image, mut list) = begin_list(host, image, list)?;
    let ImportMade { text, listed, .. } = made;
    match write_list(listed, &mut list.file) {
        Ok(()) => both_ended(host, text, image, list),
        Err(trouble) => {
            list.abandon(host);
            Err(image.abandon_with(host, trouble))
        }
    }
}

/// The file of the image and that of the list, both begun. A new file for the list doesn't get the name of the place that the image
/// takes.
fn begin_list<'a, H: Files + AllocGlobal>(
    host: &H,
    image: Late<'a, '_, H>,
    list: FileTarget<'a, H::File>,
) -> Result<(Output<'a, H::File>, Output<'a, H::File>), Trouble>
where
    H::File: SystemFile,
{
    let image = match image.into_output() {
        Ok(image) => image,
        Err(trouble) => {
            list.leave(host);
            return Err(trouble);
        }
    };
    match list.begin_apart(host, image.place_name()) {
        Ok(list) => Ok((image, list)),
        Err(trouble) => Err(image.abandon_with(host, trouble)),
    }
}

/// The error of an import that failed before its image was complete. A file that wasn't begun is unchanged.
pub(crate) fn unfinished<'a, H: Files + AllocGlobal>(
    host: &H,
    trouble: Trouble,
    image: Late<'a, '_, H>,
    list: Option<FileTarget<'a, H::File>>,
) -> Trouble
where
    H::File: SystemFile,
{
    if let Some(list) = list {
        list.leave(host);
    }
    image.failed(trouble)
}

/// Writes the list of objects to its file.
fn write_list<F: Write + Drop>(
    listed: Option<(ListedImport, String)>,
    list: &mut Watched<'_, F>,
) -> Result<(), Trouble> {
    let Some((import, room)) = listed else {
        return Ok(());
    };
    match give_list(&import, room, &mut ToWrite::new(&mut *list)) {
        Ok(()) => Ok(()),
        Err(fault) => Err(Trouble::from(fault).if_failed(list)),
    }
}
