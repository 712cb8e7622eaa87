//! The files of `import`.
ghost use Rattle.std.specs.Prelude.{◌≡◌, ◌⊎◌, IfErr};

use command_files::{
    FileTarget, Late, SystemFile, different_target, must_differ, not_regular, output_must_differ,
    same_file, target_beside,
};
use command_line::Import;
use command_support::{Content, FileWord, Role, Trouble, Watched};
use heap_image::Fault;
use std::alloc::Global;
use std::fs::OpenFile;
use std::io::{ErrorKind, Read};
use std::rt::Files;

/// The number of first bytes that tell a dump from anything else.
const NAME_BYTES: u64 = 19;

/// A dump that is open, and the files to write.
#[derive(Drop)]
pub(crate) struct ImportFiles<'a, F: Drop> {
    pub(crate) dump: Watched<'a, F>,
    /// Whether the dump is a regular file, which can be read twice.
    pub(crate) is_regular: bool,
    /// The file for the image.
    pub(crate) image: FileTarget<'a, F>,
    /// The file for the list of objects, if there is to be one.
    pub(crate) list: Option<FileTarget<'a, F>>,
}

impl<'a, F: OpenFile + Drop> ImportFiles<'a, F> {
    /// Opens the dump, and finds the files to write. With `--atomic` alone the image may replace the dump. No other two may be
    /// one file. A folder is no dump.
    pub(crate) fn open<H: Files<File = F> + AllocGlobal>(
        host: &H,
        request: &Import<'a>,
    ) -> Result<ImportFiles<'a, F>, Trouble> {
        let word = FileWord::new(Role::Dump, request.dump);
        let image = FileWord::new(Role::Image, request.image);
        if !request.atomic {
            output_must_differ(host.alloc(), word, image)?;
        }
        let dump = Watched::open(host, word)?;
        let found = dump.metadata()?;
        if found.is_dir() {
            return Err(not_regular(host.alloc(), word)?);
        }
        let image = target_beside(host, &dump, image, request.atomic)?;
        match list_target(host, &dump, &image, request) {
            Ok(list) => Ok(ImportFiles {
                dump,
                is_regular: found.is_file(),
                image,
                list,
            }),
            Err(trouble) => {
                image.leave(host);
                Err(trouble)
            }
        }
    }
}

/// Finds the file for the list of objects, if there is to be one. It must be neither the dump nor the image.
fn list_target<'a, H: Files + AllocGlobal>(
    host: &H,
    dump: &Watched<'a, H::File>,
    image: &FileTarget<'a, H::File>,
    request: &Import<'a>,
) -> Result<Option<FileTarget<'a, H::File>>, Trouble> {
    let Some(name) = request.classes else {
        return Ok(None);
    };
    let list = FileWord::new(Role::Drawing, name);
    must_differ(host.alloc(), image.word(), list)?;
    let found = different_target(host, dump, list, request.atomic)?;
    match found.is_same(host, image) {
        Ok(false) => Ok(Some(found)),
        Ok(true) => {
            found.leave(host);
            Err(same_file(host.alloc(), image.word(), list)?)
        }
        Err(trouble) => {
            found.leave(host);
            Err(trouble)
        }
    }
}

/// The file for the image, which is begun with its first byte. A new file doesn't get the name of the place that the list takes.
pub(crate) fn late_beside<'a, 'h, H: Files + AllocGlobal>(
    host: &'h H,
    image: FileTarget<'a, H::File>,
    list: Option<&FileTarget<'a, H::File>>,
) -> Result<Late<'a, 'h, H>, Trouble>
where
    H::File: SystemFile,
{
    let place = match list {
        Some(list) => list.place_text(host.alloc())?,
        None => None,
    };
    Ok(Late::new(host, image).apart(place))
}

/// The bytes that a pipe or a device gives, or the first of them if no dump begins so: a device may never end.
///
/// Fault 13 if a call for them fails, and 11 if memory runs out.
pub(crate) fn keep<R: Read>(alloc: Global, dump: &mut R) -> Result<Vec<u8>, Fault>
    ensures { IfErr result (λ fault. (fault ≡ Fault.Io) ⊎ (fault ≡ Fault.Memory)) }
{
    let mut bytes = Vec::new(alloc);
    let begun = dump.by_ref().take(NAME_BYTES).read_to_end(&mut bytes);
    let kept = if begun.is_ok() && Content::of(bytes.as_slice()) == Some(Content::Dump) {
        dump.read_to_end(&mut bytes)
    } else {
        begun
    };
    match kept {
        Ok(_) => Ok(bytes),
        Err(error) if error.kind() == ErrorKind::OutOfMemory => Err(Fault::Memory),
        Err(_) => Err(Fault::Io),
    }
}
