ghost use Rattle.std.specs.Prelude.{◌≡◌, ◌≢◌, ◌⊎◌, ◌++◌, codes, true, IfOk, IfErr, OnOk, OnErr, IsTrue, string_bytes};
ghost use Rattle.std.specs.Io.KnownBytes.{IsAtEnd};
ghost use Rattle.std.specs.Option.{ForSome};
ghost use Rattle.command_line.specs.Request.{rows_in};
ghost use Rattle.object_heap.specs.HeapImage.{IsValid};
ghost use Rattle.object_heap.specs.Version.{has_roots};
ghost use Rattle.heap_dump.specs.ImportFigures.{AreFiguresOf, figures_text};
ghost use Rattle.heap_dump.specs.Listing.{AreObjectsOf};
ghost use Rattle.heap_commands.specs.Import.{IsImport, IsImportText, IsImported, IsTextOf};
ghost use Rattle.command_support.specs.Failure.{failed_device};

pub mod histogram;
mod import_ending;
pub(crate) mod import_files;
pub mod object_list;

use crate::shared::live_share::live_share;
use crate::shared::versions::requested_version;
use command_files::{Late, SystemFile, WorkDone, open_again};
use command_line::Import;
use command_support::{Failure, Trouble, Watched};
use command_times::{Laps, LiveShare, Phase, Stats, Stopwatch, TimedIntake, TimedOutlet};
use heap_dump::{Followed, ImportFigures, ListedImport, Options, import, import_listed};
use heap_image::{FromRead, Intake, Outlet, ToWrite, write_image_buffered};
use histogram::push_histogram;
use import_ending::{finished, unfinished};
use import_files::{ImportFiles, keep, late_beside};
use object_list::list_room;
use std::alloc::{AllocError, Global};
use std::io::{Read, Write};
use std::rt::Files;
use std::time::Clock;

/// Room for the line with the figures, with 20 digits for each number.
const LINE_ROOM: usize = 240;

/// By how much the object of the line is longer at most.
const OBJECT_ROOM: usize = 512;

/// Imports the dump in one file as the image of another, and returns what `import` prints.
pub fn answer<'a, R: Files + AllocGlobal + Clock>(
    rt: &R,
    request: Import<'a>,
) -> Result<WorkDone<'a>, Trouble>
where
    R::File: SystemFile,
    ensures text { IfOk result (λ done. IsImportText (rows_in request.entry) done.text.items) }
    ensures printed { IfOk result (λ done. IsImported done.text.items) }
{
    let watch = Stopwatch::start(rt, request.stats);
    let wish = ImportWish::of(&request);
    let ImportFiles {
        dump,
        is_regular,
        image,
        list,
    } = ImportFiles::open(rt, &request)?;
    let mut late = late_beside(rt, image, list.as_ref())?;
    let imported = if is_regular {
        import_file(rt, dump, &mut late, wish, watch)
    } else {
        import_pipe(rt, dump, &mut late, wish, watch)
    };
    match imported {
        Ok((mut made, stats)) => {
            let room = made.room.take();
            Ok(
                finished(rt, made, late, list)?
                    .with_stats(stats)
                    .with_room(room),
            )
        }
        Err(trouble) => Err(unfinished(rt, trouble, late, list)),
    }
}

/// Imports the dump in a regular file, which is opened again for its second reading.
fn import_file<'a, R: Files + AllocGlobal + Clock>(
    rt: &R,
    mut dump: Watched<'a, R::File>,
    image: &mut Late<'a, '_, R>,
    wish: ImportWish,
    watch: Stopwatch,
) -> Result<(ImportMade, Stats), Trouble>
where
    R::File: SystemFile,
    ensures { IfOk result (λ made. IsImportText wish.rows (string_bytes made.0.text)) }
{
    let mut again = open_again(rt, dump.word())?;
    match import_timed(rt, (&mut dump, &mut again), image, wish, watch) {
        Ok(made) => Ok(made),
        Err(failure) => Err(Trouble::new(failure).if_dump(&dump, &again)),
    }
}

/// Imports the dump that a pipe or a device gives. It gives its bytes once, and they are kept for both readings.
fn import_pipe<'a, R: Files + AllocGlobal + Clock>(
    rt: &R,
    mut dump: Watched<'a, R::File>,
    image: &mut Late<'a, '_, R>,
    wish: ImportWish,
    watch: Stopwatch,
) -> Result<(ImportMade, Stats), Trouble>
where
    R::File: SystemFile,
    ensures { IfOk result (λ made. IsImportText wish.rows (string_bytes made.0.text)) }
{
    let bytes = match keep(rt.alloc(), &mut dump) {
        Ok(bytes) => bytes,
        Err(fault) => return Err(Trouble::from(fault).if_failed(&dump)),
    };
    let readers = (bytes.as_slice(), bytes.as_slice());
    match import_timed(rt, readers, image, wish, watch) {
        Ok(made) => Ok(made),
        Err(failure) => Err(Trouble::new(failure).if_dump(&dump, &dump)),
    }
}

/// Makes an image of the dump that both readers give, and writes it. Returns what was made, and the times.
fn import_timed<R: AllocGlobal + Clock, I: Read + Drop, W: Write + Drop>(
    rt: &R,
    readers: (I, I),
    image: W,
    wish: ImportWish,
    watch: Stopwatch,
) -> Result<(ImportMade, Stats), Failure>
    ensures { IfOk result (λ made. IsImportText wish.rows (string_bytes made.0.text)) }
{
    let (first, second) = readers;
    let mut first = TimedIntake::new(rt, watch, FromRead::new(first));
    let mut second = TimedIntake::new(rt, watch, FromRead::new(second));
    let mut output = TimedOutlet::new(rt, watch, ToWrite::new(image));
    let made = import_into(rt.alloc(), &mut first, &mut second, &mut output, wish)?;
    let stats = Stats::of_import(watch, laps_of(&second, &output), made.share);
    Ok((made, stats))
}

/// The phases of an import: both readings, making the image, and writing it.
fn laps_of<H: Clock, I: Drop, O: Drop>(
    again: &TimedIntake<'_, H, I>,
    output: &TimedOutlet<'_, H, O>,
) -> Laps {
    Laps::new()
        .then(Phase::Read, again.ended())
        .then(Phase::Check, output.begun())
        .then(Phase::Write, output.ended())
}

/// What is wanted of an import.
#[derive(Clone, Copy)]
pub struct ImportWish {
    pub options: Options,
    /// Whether its objects are listed.
    pub lists_objects: bool,
    /// The most classes of the histogram, if one is printed.
    pub rows: Option<u32>,
    /// Whether the text is printed as an object.
    pub json: bool,
}

impl ImportWish {
    fn of(request: &Import<'_>) -> ImportWish
        ensures { result.rows ≡ rows_in request.now }
    {
        ImportWish {
            options: Options {
                region_log: request.region_log,
                allowance: request.allowance,
                live_only: request.live_only,
                followed: followed_by(request),
                packs: request.pack,
                version: requested_version(request.version),
            },
            lists_objects: request.classes.is_some(),
            rows: request.histogram,
            json: request.json,
        }
    }
}

/// Which references a call of `import` follows.
fn followed_by(request: &Import<'_>) -> Followed {
    if request.weak_soft {
        Followed::Strong
    } else if request.weak {
        Followed::StrongAndSoft
    } else {
        Followed::All
    }
}

/// What was made of a dump whose image is written.
#[derive(Drop)]
pub struct ImportMade {
    /// The text for standard output.
    pub text: String,
    /// The objects of the image, if they are wanted, and room for their lines.
    pub listed: Option<(ListedImport, String)>,
    /// How much of the image is live.
    pub share: LiveShare,
    /// Room for the text as an object, if it is printed so and may be longer than a line.
    pub room: Option<Vec<u8>>,
}

/// Makes an image of the dump that both devices give, and writes it. Returns the text for standard output and, if they are
/// wanted, the objects of the image.
///
/// Both devices are read to their ends before a byte is written, and nothing is allocated once one is. Fault 13 says
/// that a device failed, fault 11 that memory ran out, and any other failure is that of `heap_dump::import`.
pub fn import_into<R: Intake, O: Outlet>(
    alloc: Global,
    first: &mut R,
    second: &mut R,
    output: &mut O,
    wish: ImportWish,
) -> Result<ImportMade, Failure>
    ensures image { IfOk result (λ made. IsImport wish.options wish.rows
        (O.took output.old) (O.took output.new) (string_bytes made.text)) }
    ensures objects { IfOk result (λ made. ForSome made.listed
        (λ listed. AreObjectsOf listed.0.imported.image listed.0.objects.items)) }
    ensures first_end { OnOk result (IsAtEnd (R.left first.new)) }
    ensures second_end { OnOk result (IsAtEnd (R.left second.new)) }
    // Only the device for the image stops it once it writes.
    ensures nothing_yet { IfErr result (λ failure. failure ≢ failed_device → output.new ≡ output.old) }
    ensures written { OnErr result ((output.new ≡ output.old) ⊎ IsTrue (O.has_failed output.new)) }
    ensures device { result ≡ Err failed_device → IsTrue (R.has_failed first.new)
        ⊎ IsTrue (R.has_failed second.new) ⊎ IsTrue (O.has_failed output.new) }
{
    match wish.rows {
        None if !wish.lists_objects => {
            let imported = import(alloc, first, second, wish.options)?;
            let text = line_of(alloc, imported.figures)?;
            write_image_buffered(alloc, &imported.image, output)?;
            Ok(ImportMade {
                text,
                listed: None,
                share: live_share(&imported.image),
                room: None,
            })
        }
        _ => {
            let import = import_listed(alloc, first, second, wish.options)?;
            let text = text_of(alloc, &import, wish.rows)?;
            let object = object_room(alloc, wish.json, text.len())?;
            let room = list_room(alloc, &import.names)?;
            write_image_buffered(alloc, &import.imported.image, output)?;
            let share = live_share(&import.imported.image);
            Ok(ImportMade {
                text,
                listed: Some((import, room)),
                share,
                room: object,
            })
        }
    }
}

/// Room for the object of a text of this length, if it is wanted. A row of a histogram has at least 78 bytes beside the name of
/// its class, and its object at most 90 beside digits, and two for each byte of the name.
fn object_room(alloc: Global, is_wanted: bool, len: usize) -> Result<Option<Vec<u8>>, AllocError> {
    if !is_wanted {
        return Ok(None);
    }
    let room = len.saturating_mul(2).saturating_add(OBJECT_ROOM);
    Ok(Some(Vec::with_capacity(alloc, room)?))
}

/// The line with the figures of an import.
fn line_of(alloc: Global, figures: ImportFigures) -> Result<String, AllocError>
    ensures { IfOk result (λ line. string_bytes line ≡ figures_text figures ++ codes "\n") }
{
    let mut line = String::with_capacity(alloc, LINE_ROOM)?;
    writeln!(line, "{figures}")?;
    Ok(line)
}

/// The line with the figures of an import, and a histogram with at most `rows` classes if one is wanted.
fn text_of(alloc: Global, import: &ListedImport, rows: Option<u32>) -> Result<String, AllocError>
    requires valid { IsValid import.now.imported.image }
    requires rooted { has_roots import.now.imported.image.version ≡ true }
    requires objects { AreObjectsOf import.now.imported.image import.now.objects.items }
    requires figures { AreFiguresOf import.now.imported.image import.now.imported.figures }
    ensures { IfOk result (λ text. IsTextOf import.now.imported.image rows (string_bytes text)) }
{
    let mut text = line_of(alloc, import.imported.figures)?;
    let Some(most) = rows else {
        return Ok(text);
    };
    push_histogram(alloc, import, most, &mut text)?;
    Ok(text)
}
