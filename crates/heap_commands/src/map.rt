ghost use Rattle.std.specs.Prelude.{◌≡◌, ◌≢◌, ◌≤◌, ◌⊎◌, ◌++◌, codes, option_map, None, ℕ, List, IfOk, IfErr, IfSome, OnErr, IsTrue, string_bytes};
ghost use Rattle.std.specs.Io.KnownBytes.{Appends};
ghost use Rattle.heap_image.specs.Refusals.{IsReason};
ghost use Rattle.heap_map.specs.Cells.{cells_before};
ghost use Rattle.heap_map.specs.MapFigures.{AreFiguresOf, figures_text};
ghost use Rattle.heap_commands.specs.Map.{IsDrawing, IsMap, IsMapLine, IsPicture, IsPrinted, after_shown, cells_shown, moves_shown, shape_of};

use command_files::{FileTarget, Late, SystemFile, WorkDone, different_target, open_image};
use command_host::ImageFile;
use command_line::{Look, Map};
use command_support::{FileWord, Role, Screen, Trouble, USUAL_WIDTH, Watched};
use heap_image::{Fault, Image, Intake, Outlet, ToWrite, all_processors, give_all, read_image};
use heap_map::{Glyphs, MapFigures, Picture, Shape, Style};
use std::alloc::{AllocError, Global};
use std::os::unix::fs::FileExt;
use std::rt::Files;
use std::thread::Threads;
use std::time::Clock;
use summary::Survey;

/// Returns what `map` prints of the image in a file. The picture goes to another file where the request names one.
pub fn answer<'a, R: Files + AllocGlobal + Threads + Clock + Sync>(
    rt: &R,
    screen: Screen,
    request: Map<'a>,
) -> Result<WorkDone<'a>, Trouble>
where
    R::File: FileExt + SystemFile + Sync,
    ensures { IfOk result (λ done. IsMap done.text.items) }
{
    let width = width_on(screen, &request);
    let cut = Cut {
        width,
        rows: rows_on(screen, &request, width),
        after: request.after || (request.moves && request.svg.is_some()),
        moves: request.moves,
        name: request.image,
    };
    let image = open_image(rt, request.image, request.shape)?;
    match request.svg {
        Some(svg) => {
            let svg = FileWord::new(Role::Drawing, svg);
            draw(rt, image, svg, cut, request.atomic)
        }
        None => print(rt, image, cut, style_on(screen, request.look)),
    }
}

/// How a heap is cut into cells.
#[derive(Clone, Copy)]
pub struct Cut<'a> {
    /// The number of cells of a row, from 1 to 1000; other numbers count as the nearest of these.
    pub width: u32,
    /// The number of rows, from 1 to 100; other numbers count as the nearest of these.
    pub rows: u32,
    /// Whether the heap after its collection is shown as well.
    pub after: bool,
    /// Whether it is shown where live words go.
    pub moves: bool,
    /// The name of the heap's file.
    pub name: &'a str,
}

impl Cut<'_> {
    /// The shape of the rows. Addresses follow them where there can be more than one row.
    fn shape(self) -> Shape
        ensures { result ≡ shape_of self.entry }
    {
        Shape {
            width: self.width.max(1).min(1000),
            has_axis: 1 < self.rows,
        }
    }

    /// The largest number of cells.
    fn cells(self) -> u32
        ensures value { result ≡ cells_shown self.entry }
        ensures some { 1 ≤ result }
        ensures few { result ≤ 100000 }
    {
        let width = self.width.max(1).min(1000);
        let rows = self.rows.max(1).min(100);
        width * rows
    }
}

/// The number of columns that the name, the edges and the address of a row take.
const BESIDE_ROWS: u32 = 20;

/// The number of rows without `--height` of a drawing, and on a terminal that doesn't say how high it is.
const USUAL_ROWS: u32 = 8;

/// The largest number of cells and rows of a strip of a drawing, so that it stays small.
const MAX_DRAWN: u32 = 1050;

/// The number of cells of a row. A drawing doesn't depend on the screen.
fn width_on(screen: Screen, request: &Map<'_>) -> u32 {
    match request.svg {
        Some(_) => request.width.unwrap_or(USUAL_WIDTH),
        None => screen.cells_beside(BESIDE_ROWS, request.width),
    }
}

/// The number of rows of `width` cells: as requested, else one where no terminal shows them. A drawing has no more than
/// it has cells for.
fn rows_on(screen: Screen, request: &Map<'_>, width: u32) -> u32 {
    match (request.height, screen.rows) {
        // Bands lead from one row to another.
        _ if request.svg.is_some() && request.moves => 1,
        (height, _) if request.svg.is_some() => height
            .unwrap_or(USUAL_ROWS)
            .min((MAX_DRAWN / width.saturating_add(1)).max(1)),
        (Some(height), _) => height,
        (None, Some(rows)) if screen.is_terminal => rows_in(rows, request.after),
        (None, None) if screen.is_terminal => USUAL_ROWS,
        _ => 1,
    }
}

/// The number of rows of a strip that fit into the lines of a terminal, with the figures, the legend and a prompt.
fn rows_in(lines: u32, both: bool) -> u32 {
    let strips = if both { 2 } else { 1 };
    (lines.saturating_sub(5) / 2 / strips).max(1).min(100)
}

/// The style of a picture on standard output.
pub fn style_on(screen: Screen, look: Look) -> Style {
    Style {
        glyphs: if screen.is_utf8 && !look.letters {
            Glyphs::Blocks
        } else {
            Glyphs::Letters
        },
        is_coloured: (screen.has_colours() || look.coloured) && !look.plain,
    }
}

/// Prints the picture of the image in a file.
fn print<'a, R: Files + AllocGlobal + Threads + Clock + Sync>(
    rt: &R,
    image: Watched<'a, R::File>,
    cut: Cut<'_>,
    style: Style,
) -> Result<WorkDone<'a>, Trouble>
where
    R::File: FileExt + Sync,
    ensures { IfOk result (λ done. IsMap done.text.items) }
{
    let mut image = ImageFile::untimed(rt, image);
    match map(rt.alloc(), &mut image, cut, style, rt) {
        Ok(text) => Ok(WorkDone::printing(text.into_bytes())),
        Err(fault) => Err(Trouble::from(fault).if_image(image.watched())),
    }
}

/// Draws the picture of the image in a file to another file, and prints the figures.
fn draw<'a, R: Files + AllocGlobal + Threads + Clock + Sync>(
    rt: &R,
    image: Watched<'a, R::File>,
    svg: FileWord<'a>,
    cut: Cut<'_>,
    atomic: bool,
) -> Result<WorkDone<'a>, Trouble>
where
    R::File: FileExt + SystemFile + Sync,
    ensures { IfOk result (λ done. IsMap done.text.items) }
{
    let target = different_target(rt, &image, svg, atomic)?;
    draw_to(rt, image, cut, target)
}

/// Draws the picture of the image in a file to this file, and prints the figures.
fn draw_to<'a, R: Files + AllocGlobal + Threads + Clock + Sync>(
    rt: &R,
    image: Watched<'a, R::File>,
    cut: Cut<'_>,
    target: FileTarget<'a, R::File>,
) -> Result<WorkDone<'a>, Trouble>
where
    R::File: FileExt + SystemFile + Sync,
    ensures { IfOk result (λ done. IsMap done.text.items) }
{
    let mut late = Late::new(rt, target);
    let mut image = ImageFile::untimed(rt, image);
    let drawing = draw_into(
        rt.alloc(),
        &mut image,
        &mut ToWrite::new(&mut late),
        cut,
        rt,
    );
    match drawing {
        Ok(MapDrawing { line, .. }) => late.ended(line),
        Err(fault) => Err(late.failed(Trouble::from(fault).if_image(image.watched()))),
    }
}

/// Reads an image and returns its picture as text.
pub fn map<R: Intake, T: Threads + Sync>(
    alloc: Global,
    input: &mut R,
    cut: Cut<'_>,
    style: Style,
    threads: &T,
) -> Result<String, Fault>
    ensures map { IfOk result (λ text. IsPrinted style cut.entry
        (R.left input.old) (R.left input.new) (string_bytes text)) }
    ensures fault { IfErr result (λ fault. IfSome (R.left input.old) (λ bytes. IsReason bytes fault)) }
{
    let image = read_image(alloc, input, &all_processors(threads))?;
    text_of_image(alloc, &image, cut, style, threads)
}

/// Makes the picture of an image, as text. The only fault is that memory runs out.
fn text_of_image(
    alloc: Global,
    image: &Image,
    cut: Cut<'_>,
    style: Style,
    threads: &(impl Threads + Sync),
) -> Result<String, Fault>
    ensures map { IfOk result (λ text. IsPicture style cut.entry image.now (string_bytes text)) }
    ensures fault { IfErr result (λ fault. fault ≡ Fault.Memory) }
{
    let picture = picture_of_image(alloc, image, cut, threads)?;
    Ok(picture.text(alloc, style, cut.shape())?)
}

/// Reads an image and draws its picture to a device. Returns the drawing, whose bytes were written, with the line of
/// its figures.
///
/// Nothing is written before the drawing is made, and nothing is allocated once a byte is written.
pub fn draw_into<R: Intake, O: Outlet, T: Threads + Sync>(
    alloc: Global,
    input: &mut R,
    output: &mut O,
    cut: Cut<'_>,
    threads: &T,
) -> Result<MapDrawing, Fault>
    ensures drawing { IfOk result (λ drawing. IsDrawing (R.left input.old) (R.left input.new) (string_bytes drawing.line)) }
    ensures svg { IfOk result (λ drawing. Appends (O.took output.old) (O.took output.new) (string_bytes drawing.svg)) }
    // Only the device stops it once it writes.
    ensures nothing_yet { IfErr result (λ fault. fault ≢ Fault.Io → output.new ≡ output.old) }
    ensures written { OnErr result ((output.new ≡ output.old) ⊎ IsTrue (O.has_failed output.new)) }
    ensures fault { IfErr result (λ fault. IfSome (R.left input.old) (λ bytes. IsReason bytes fault)) }
{
    let image = read_image(alloc, input, &all_processors(threads))?;
    let drawing = drawing_of(alloc, &image, cut, threads)?;
    give_all(output, drawing.svg.as_bytes())?;
    Ok(drawing)
}

/// A drawing, and the line with its figures.
#[derive(Drop)]
pub struct MapDrawing {
    /// The figures, for standard output.
    pub line: String,
    /// The drawing.
    pub svg: String,
}

/// Draws an image. The only fault is that memory runs out.
fn drawing_of(
    alloc: Global,
    image: &Image,
    cut: Cut<'_>,
    threads: &(impl Threads + Sync),
) -> Result<MapDrawing, Fault>
    ensures line { IfOk result (λ drawing. IsMapLine image.now (string_bytes drawing.line)) }
    ensures fault { IfErr result (λ fault. fault ≡ Fault.Memory) }
{
    let picture = picture_of_image(alloc, image, cut, threads)?;
    Ok(MapDrawing {
        line: text_of_figures(alloc, picture.figures)?,
        svg: picture.svg(alloc, cut.shape(), cut.name)?,
    })
}

/// Surveys an image and makes its picture. The only fault is that memory runs out.
fn picture_of_image(
    alloc: Global,
    image: &Image,
    cut: Cut<'_>,
    threads: &(impl Threads + Sync),
) -> Result<Picture, Fault>
    ensures figures { IfOk result (λ picture. AreFiguresOf image.now picture.figures) }
    ensures before { IfOk result (λ picture. picture.before.cells.items ≡ cells_before image.now (cells_shown cut.entry)) }
    ensures after { IfOk result (λ picture. option_map (λ map. map.cells.items) picture.after ≡ after_shown image.now cut.entry) }
    ensures moves { IfOk result (λ picture. option_map (λ moves. moves.bands.items) picture.moves ≡ moves_shown image.now cut.entry) }
    ensures fault { IfErr result (λ fault. fault ≡ Fault.Memory) }
{
    let survey = Survey::of(alloc, image, &all_processors(threads))?;
    let picture = picture_of(alloc, image, &survey, cut)?;
    if cut.moves {
        Ok(picture.with_moves(alloc, image, &survey)?)
    } else {
        Ok(picture)
    }
}

/// Makes the picture of an image that was surveyed.
fn picture_of(
    alloc: Global,
    image: &Image,
    survey: &Survey,
    cut: Cut<'_>,
) -> Result<Picture, AllocError>
    requires { survey.now ≡ image.now }
    ensures figures { IfOk result (λ picture. AreFiguresOf image.now picture.figures) }
    ensures before { IfOk result (λ picture. picture.before.cells.items ≡ cells_before image.now (cells_shown cut.entry)) }
    ensures after { IfOk result (λ picture. option_map (λ map. map.cells.items) picture.after ≡ after_shown image.now cut.entry) }
    ensures moves { IfOk result (λ picture. option_map (λ moves. moves.bands.items) picture.moves ≡ None) }
{
    let cells = cut.cells();
    if cut.after {
        Picture::of_both(alloc, image, survey, cells)
    } else {
        Picture::of(alloc, image, survey, cells)
    }
}

/// The line with the figures of a heap.
fn text_of_figures(alloc: Global, figures: MapFigures) -> Result<String, AllocError>
    ensures { IfOk result (λ text. string_bytes text ≡ figures_text figures ++ codes "\n") }
{
    let mut line = String::new(alloc);
    writeln!(line, "{figures}")?;
    Ok(line)
}
