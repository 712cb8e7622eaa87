ghost use Rattle.std.specs.Prelude.{IfOk, string_bytes};
ghost use Rattle.heap_commands.specs.Compare.{IsCompared};

use crate::import::import_files::keep;
use command_files::{SystemFile, WorkDone, not_regular, open_again, same_file};
use command_line::Compare;
use command_support::{Failure, FileWord, Role, Trouble, Watched};
use dump_graph::{DumpGraph, number_classes, read_graph};
use heap_image::FromRead;
use object_pairs::{Manner, Report, compare_heaps};
use std::alloc::{AllocError, Global};
use std::io::Read;
use std::rt::Files;

/// Compares the heap dumps in two files, and returns what `compare` prints, and the status of its verdict.
pub fn answer<'a, R: Files + AllocGlobal>(
    rt: &R,
    request: Compare<'a>,
) -> Result<WorkDone<'a>, Trouble>
where
    R::File: SystemFile,
    ensures { IfOk result (λ done. IsCompared done.text.items) }
{
    let before = FileWord::new(Role::Before, request.before);
    let after = FileWord::new(Role::After, request.after);
    if before.is_standard() && after.is_standard() {
        return Err(same_file(rt.alloc(), before, after)?);
    }
    let was = read_dump(rt, before)?;
    let is = read_dump(rt, after)?;
    let manner = Manner {
        json: request.json,
        explain: request.explain,
    };
    let report = compare(rt.alloc(), was, is, manner)?;
    let status = report.verdict.status();
    Ok(WorkDone::printing(report.text.into_bytes()).with_status(status))
}

/// Reads the dump in a file. A folder is no dump.
fn read_dump<'a, R: Files + AllocGlobal>(rt: &R, word: FileWord<'a>) -> Result<DumpGraph, Trouble>
where
    R::File: SystemFile,
{
    let mut dump = Watched::open(rt, word)?;
    let found = dump.metadata()?;
    if found.is_dir() {
        return Err(not_regular(rt.alloc(), word)?);
    }
    if found.is_file() {
        let mut again = open_again(rt, word)?;
        match read_twice(rt.alloc(), (&mut dump, &mut again)) {
            Ok(graph) => Ok(graph),
            Err(failure) => Err(Trouble::new(failure).if_dump(&dump, &again)),
        }
    } else {
        read_pipe(rt.alloc(), dump)
    }
}

/// Reads the dump that a pipe or a device gives. It gives its bytes once, and they are kept for both readings.
fn read_pipe<F: Read + Drop>(
    alloc: Global,
    mut dump: Watched<'_, F>,
) -> Result<DumpGraph, Trouble> {
    let bytes = match keep(alloc, &mut dump) {
        Ok(bytes) => bytes,
        Err(fault) => return Err(Trouble::from(fault).if_failed(&dump)),
    };
    match read_twice(alloc, (bytes.as_slice(), bytes.as_slice())) {
        Ok(graph) => Ok(graph),
        Err(failure) => Err(Trouble::new(failure).if_dump(&dump, &dump)),
    }
}

/// Reads the dump that both readers give.
fn read_twice<I: Read + Drop>(alloc: Global, readers: (I, I)) -> Result<DumpGraph, Failure> {
    let (first, second) = readers;
    let (mut first, mut second) = (FromRead::new(first), FromRead::new(second));
    Ok(read_graph(alloc, &mut first, &mut second)?)
}

/// Compares two dumps.
pub fn compare(
    alloc: Global,
    before: DumpGraph,
    after: DumpGraph,
    manner: Manner,
) -> Result<Report, AllocError>
    ensures { IfOk result (λ report. IsCompared (string_bytes report.text)) }
{
    let (mut before, mut after) = (before, after);
    let names = number_classes(alloc, &mut before, &mut after)?;
    compare_heaps(alloc, &before.graph, &after.graph, &names, manner)
}
