//! The whole program, over any two writers.
ghost use Rattle.std.specs.Prelude.{◌≡◌, ◌≢◌, ◌≤◌, ◌∷◌, ◌⊎◌, [], codes, false, map, string_bytes, ℕ, Bool, List, Option, None, IfOk, OnOk, IfErr, IfSome, IsTrue};
ghost use Rattle.command_line.specs.Request.{IsFor, IsNoUsage, asks_steps, rows_of};
ghost use Rattle.heap_commands.specs.Board.{IsBoardShown};
ghost use Rattle.heap_commands.specs.Import.{IsImportText};
ghost use Rattle.std.specs.Io.KnownBytes.{Appends};
ghost use Rattle.command_line.specs.CommandLine.{AreWords, AreCallOf, AreLineOf, HaveBeginning, HaveWord};
ghost use Rattle.command_line.specs.Respelling.{plain_line};
ghost use Rattle.pcompact.specs.Commands.{IsPrintedBy};
ghost use Rattle.command_line.specs.declared.unread.Unread.{Unread};
ghost use Rattle.command_support.specs.Failure.{failed_device, out_of_memory, status_of};
ghost use Rattle.command_support.specs.Json.{as_shown, difference_object};
ghost use Rattle.command_support.specs.declared.difference.Difference.{Difference};
ghost use Rattle.command_support.specs.declared.failure.Failure.TheVariants.{Differs};

use crate::commands;
use crate::named_files::named_files;
use command_files::{SystemFile, WorkDone};
use command_host::closed;
use command_line::{Request, Respelled, Unread};
use command_support::{
    FailedCall, Failure, NamedFiles, Printable, Reason, Screen, SystemCall, Trouble, push_json,
};
use command_times::Stats;
use heap_image::Fault;
use std::alloc::{AllocError, Global};
use std::io;
use std::io::Write;
use std::os::unix::fs::FileExt;
use std::rt::Files;
use std::sync::Wait;
use std::thread::Threads;
use std::time::Clock;

/// Room for the object of a line, in bytes.
const OBJECT_ROOM: usize = 512;

/// Runs the program on its arguments, without the program's name, and returns the exit status.
///
/// `out` and `err` are standard output and standard error, and `screen` says what the first can show. What a command
/// prints is written to `out` whole, once its work is done, and flushed; if that fails, the command fails with fault
/// 13. Files written with `--atomic` are renamed into place after that. A failed write to `err` changes nothing.
/// Details follow the error line on `err`, except with `--verbose=never`; with `--stats`, timings are printed there at
/// the end.
///
/// `rt` opens files, allocates, starts threads, waits for them and reads the clock.
pub fn run<R: Files + AllocGlobal + Threads + Wait + Clock + Sync, A: Write, B: Write>(
    rt: &R,
    words: &[String],
    screen: Screen,
    out: &mut A,
    err: &mut B,
) -> u8
where
    R::File: FileExt + SystemFile + Sync,
    ensures status { result ≤ 3 }
    ensures verdict { result ≡ 3 → HaveWord (codes "compare") words.now }
    ensures good { result ≡ 0 → (err.new ≡ err.old) ⊎ HaveWord (codes "--stats") words.now }
    ensures usage { result ≡ 2 → out.new ≡ out.old }
    ensures board_is_known { AreWords words.now (codes "board" ∷ []) → result ≤ 1 }

    // What a good call of a command prints, by the command's name; with `--json`, perhaps as an object. A line may have options
    // with a value, as `--verbose=always`, if it calls the command with plain ones.
    ensures prints { (name : List ℕ) → AreLineOf name words.now → result ≡ 0
        → (text : List ℕ) × IsPrintedBy name text
        × (json : Bool) × (IsTrue json → HaveWord (codes "--json") words.now)
        × Appends (A.contents out.old) (A.contents out.new) (as_shown json text) }
    // Without `--histogram`, `import` prints the line with the figures alone.
    ensures import { AreLineOf (codes "import") words.now → result ≡ 0
        → (text : List ℕ) × (rows : Option ℕ) × IsImportText rows text
        × (rows ≢ None → HaveBeginning (codes "--histogram") words.now)
        × (json : Bool) × (IsTrue json → HaveWord (codes "--json") words.now)
        × Appends (A.contents out.old) (A.contents out.new) (as_shown json text) }
    // Without `--steps`, `board` prints the report alone.
    ensures report { AreLineOf (codes "board") words.now → result ≡ 0
        → (text : List ℕ) × (steps : Bool) × IsBoardShown steps text
        × (IsTrue steps → HaveBeginning (codes "--steps") words.now)
        × (json : Bool) × (IsTrue json → HaveWord (codes "--json") words.now)
        × Appends (A.contents out.old) (A.contents out.new) (as_shown json text) }
{
    match command_line::read(rt.alloc(), words) {
        Ok(request) => {
            let request = request.as_asked(words);
            let manner = Manner::of(words, &request, screen);
            carry_out(rt, request, manner, out, err)
        }
        Err(unread) => match respelled(rt.alloc(), words, &unread) {
            Some(spelled) => run_respelled(rt, &spelled, screen, out, err),
            None => {
                let failure = unread_failure(rt.alloc(), words, unread);
                report(&Trouble::new(failure), None, err)
            }
        },
    }
}

/// How a command is carried out.
#[derive(Clone, Copy)]
struct Manner {
    /// What standard output can show.
    screen: Screen,
    /// Whether details follow the line of an error.
    details: bool,
    /// Whether timings are printed.
    measured: bool,
    /// Whether an object is printed in place of the text.
    json: bool,
    /// Whether the exit status may give a verdict.
    judged: bool,
}

impl Manner {
    /// How the request of these arguments is carried out. `have_word` repeats what the request says, so that the contract
    /// can name arguments.
    fn of(words: &[String], request: &Request<'_>, screen: Screen) -> Manner
        ensures stats { IsTrue result.measured → HaveWord (codes "--stats") words.now }
        ensures json { IsTrue result.json → HaveWord (codes "--json") words.now }
        ensures judged { IsTrue result.judged → HaveWord (codes "compare") words.now }
    {
        Manner {
            screen,
            details: true,
            measured: have_word(words, "--stats") && request.asks_stats(),
            json: have_word(words, "--json") && request.asks_json(),
            judged: have_word(words, "compare"),
        }
    }
}

/// Carries out a request, and returns the exit status. Where standard output is closed that is fault 13, before a file is opened.
fn carry_out<R: Files + AllocGlobal + Threads + Wait + Clock + Sync, A: Write, B: Write>(
    rt: &R,
    request: Request<'_>,
    manner: Manner,
    out: &mut A,
    err: &mut B,
) -> u8
where
    R::File: FileExt + SystemFile + Sync,
    ensures status { result ≤ 3 }
    ensures verdict { result ≡ 3 → IsTrue manner.judged }
    ensures good { result ≡ 0 → (err.new ≡ err.old) ⊎ IsTrue manner.measured }
    ensures usage { result ≡ 2 → out.new ≡ out.old }
    ensures board_is_known { IsFor (codes "board") request.entry → result ≤ 1 }
    ensures prints { (name : List ℕ) → IsFor name request.entry → result ≡ 0
        → (text : List ℕ) × IsPrintedBy name text
        × Appends (A.contents out.old) (A.contents out.new) (as_shown manner.json text) }
    ensures import { IsFor (codes "import") request.entry → result ≡ 0
        → (text : List ℕ) × IsImportText (rows_of request.entry) text
        × Appends (A.contents out.old) (A.contents out.new) (as_shown manner.json text) }
    ensures report { IsFor (codes "board") request.entry → result ≡ 0
        → (text : List ℕ) × IsBoardShown (asks_steps request.entry) text
        × Appends (A.contents out.old) (A.contents out.new) (as_shown manner.json text) }
{
    let named = manner.details.then_some(named_files(&request));
    if !manner.screen.is_open {
        return report(&unprinted(&closed()), named, err);
    }
    let judged = manner.judged && request.gives_verdict();
    let done = match answer(rt, manner, request) {
        Ok(done) => done,
        Err(trouble) => {
            let trouble = with_object(rt.alloc(), manner.json, trouble, out);
            return report(&trouble, named, err);
        }
    };
    let (stats, status) = (done.stats, status_after(judged, done.status));
    if let Err(trouble) = finish(rt, done, out) {
        return report(&trouble, named, err);
    }
    if manner.measured {
        report_stats(rt, stats, err);
    }
    status
}

/// The exit status of a command that has printed its text: 0, or 1 or 3 where it gives such a verdict.
fn status_after(is_judged: bool, status: u8) -> u8
    ensures within { result ≤ 3 }
    ensures good { is_judged ≡ false → result ≡ 0 }
    ensures no_usage { result ≢ 2 }
{
    match status {
        1 | 3 if is_judged => status,
        _ => 0,
    }
}

/// Runs a command and returns its text; prints nothing. The text is an object if the manner says so. Room for it is allocated
/// before the command writes a file.
fn answer<'a, R: Files + AllocGlobal + Threads + Wait + Clock + Sync>(
    rt: &R,
    manner: Manner,
    request: Request<'a>,
) -> Result<WorkDone<'a>, Trouble>
where
    R::File: FileExt + SystemFile + Sync,
    ensures prints { (name : List ℕ) → IsFor name request.entry → IfOk result (λ done.
        (text : List ℕ) × IsPrintedBy name text × (done.text.items ≡ as_shown manner.json text)) }
    ensures import { IsFor (codes "import") request.entry → IfOk result (λ done.
        (text : List ℕ) × IsImportText (rows_of request.entry) text × (done.text.items ≡ as_shown manner.json text)) }
    ensures report { IsFor (codes "board") request.entry → IfOk result (λ done.
        (text : List ℕ) × IsBoardShown (asks_steps request.entry) text × (done.text.items ≡ as_shown manner.json text)) }
    ensures board { IsFor (codes "board") request.entry
        → IfErr result (λ trouble. trouble.failure ≡ out_of_memory) }
{
    if !manner.json {
        return commands::answer(rt, manner.screen, request);
    }
    let usual = Vec::with_capacity(rt.alloc(), OBJECT_ROOM)?;
    let mut done = commands::answer(rt, manner.screen, request)?;
    let mut object = done.take_room(usual);
    match push_json(done.text.as_slice(), &mut object) {
        Ok(()) => Ok(WorkDone {
            text: object,
            ..done
        }),
        Err(refused) => {
            done.remove(rt);
            Err(Trouble::from(refused))
        }
    }
}

/// Prints the object of a difference between images, if one is wanted. The trouble with that takes the place of the difference,
/// and any other trouble stays as it is.
fn with_object<A: Write>(alloc: Global, json: bool, trouble: Trouble, out: &mut A) -> Trouble
    ensures object { IsTrue json → (difference : Difference) → trouble.failure ≡ Differs difference
        → result.failure ≡ Differs difference
        → Appends (A.contents out.old) (A.contents out.new) (difference_object difference) }
    ensures usage { status_of result.failure ≡ 2 → out.new ≡ out.old }
    ensures memory { trouble.failure ≡ out_of_memory → result.failure ≡ out_of_memory }
{
    let Failure::Differs(difference) = &trouble.failure else {
        return trouble;
    };
    if !json {
        return trouble;
    }
    let object = match difference.object(alloc) {
        Ok(object) => object,
        Err(refused) => return Trouble::from(refused),
    };
    match show(object.as_bytes(), out) {
        Ok(()) => trouble,
        Err(error) => unprinted(&error),
    }
}

/// A line that isn't a request, with plain options in place of those with a value.
#[derive(Drop)]
struct Spelled<'w> {
    line: Respelled,
    /// The words as they were.
    words: &'w [String],
}

/// Spells these words anew, if they are wrong usage and have options with a value. If memory runs out they stay wrong usage.
fn respelled<'w>(alloc: Global, words: &'w [String], unread: &Unread) -> Option<Spelled<'w>>
    ensures usage_alone { IsNoUsage unread.now → result ≡ None }
    ensures words { IfSome result (λ spelled. spelled.words.now ≡ words.now) }
    ensures plain { IfSome result (λ spelled.
        map string_bytes spelled.line.words.items ≡ plain_line (map string_bytes words.now)) }
{
    match unread {
        Unread::Usage(_) => match command_line::respell(alloc, words) {
            Ok(Some(line)) => Some(Spelled { line, words }),
            _ => None,
        },
        Unread::NoCommand | Unread::Memory => None,
    }
}

/// Runs the program on arguments that were spelled anew, and returns the exit status.
fn run_respelled<R: Files + AllocGlobal + Threads + Wait + Clock + Sync, A: Write, B: Write>(
    rt: &R,
    spelled: &Spelled<'_>,
    screen: Screen,
    out: &mut A,
    err: &mut B,
) -> u8
where
    R::File: FileExt + SystemFile + Sync,
    ensures status { result ≤ 3 }
    ensures verdict { result ≡ 3 → HaveWord (codes "compare") spelled.now.words.now }
    ensures good { result ≡ 0 → (err.new ≡ err.old) ⊎ HaveWord (codes "--stats") spelled.now.words.now }
    ensures usage { result ≡ 2 → out.new ≡ out.old }
    ensures prints { (name : List ℕ) → AreCallOf name spelled.now.line.words.items → result ≡ 0
        → (text : List ℕ) × IsPrintedBy name text
        × (json : Bool) × (IsTrue json → HaveWord (codes "--json") spelled.now.words.now)
        × Appends (A.contents out.old) (A.contents out.new) (as_shown json text) }
    ensures import { AreCallOf (codes "import") spelled.now.line.words.items → result ≡ 0
        → (text : List ℕ) × (rows : Option ℕ) × IsImportText rows text
        × (rows ≢ None → HaveBeginning (codes "--histogram") spelled.now.words.now)
        × (json : Bool) × (IsTrue json → HaveWord (codes "--json") spelled.now.words.now)
        × Appends (A.contents out.old) (A.contents out.new) (as_shown json text) }
    ensures report { AreCallOf (codes "board") spelled.now.line.words.items → result ≡ 0
        → (text : List ℕ) × (steps : Bool) × IsBoardShown steps text
        × (IsTrue steps → HaveBeginning (codes "--steps") spelled.now.words.now)
        × (json : Bool) × (IsTrue json → HaveWord (codes "--json") spelled.now.words.now)
        × Appends (A.contents out.old) (A.contents out.new) (as_shown json text) }
{
    let words = spelled.line.words.as_slice();
    match command_line::read(rt.alloc(), words) {
        Ok(request) => {
            let request = request
                .with_color(spelled.line.color)
                .as_asked(spelled.words);
            let manner = Manner {
                details: spelled.line.verbose.is_now(true),
                ..Manner::of(spelled.words, &request, screen)
            };
            carry_out(rt, request, manner, out, err)
        }
        Err(unread) => {
            let failure = unread_failure(rt.alloc(), words, unread);
            report(&Trouble::new(failure), None, err)
        }
    }
}

/// The failure of arguments that aren't a request.
fn unread_failure(alloc: Global, words: &[String], unread: Unread) -> Failure
    ensures { unread ≡ Unread.Memory → result ≡ out_of_memory }
{
    match Failure::of_unread(alloc, unread) {
        Failure::Usage(text) => usage_failure(alloc, words, text),
        other => other,
    }
}

/// The usage failure with this text, which quotes the arguments. They must not break its lines: if one has characters
/// that aren't printable, the text is made again of the arguments as they are shown.
fn usage_failure(alloc: Global, words: &[String], text: String) -> Failure {
    if words.iter().all(is_plain) {
        return Failure::Usage(text);
    }
    match usage_failure_as_shown(alloc, words) {
        Ok(failure) => failure,
        Err(refused) => Failure::from(refused),
    }
}

/// Whether an argument is shown as it is.
fn is_plain(word: &String) -> bool {
    Printable(word.as_str()).is_plain()
}

/// The usage failure of the arguments as they are shown.
fn usage_failure_as_shown(alloc: Global, words: &[String]) -> Result<Failure, AllocError> {
    let mut shown = Vec::new(alloc);
    for word in words {
        shown.push(format!(in alloc; "{}", Printable(word.as_str()))?)?;
    }
    failure_of(alloc, shown.as_slice())
}

/// The failure of arguments that aren't a request.
fn failure_of(alloc: Global, words: &[String]) -> Result<Failure, AllocError> {
    match command_line::read(alloc, words) {
        Ok(_request) => Failure::usage(alloc, "pcompact: no such command\n"),
        Err(unread) => Ok(Failure::of_unread(alloc, unread)),
    }
}

/// Whether one of the arguments is this text.
fn have_word(words: &[String], text: &str) -> bool
    ensures { IsTrue result → HaveWord text.now words.now }
{
    words.iter().any(|word| word.as_str() == text)
}

/// Prints the timings to `err`. If that fails, nothing changes.
fn report_stats<H: Files + Threads + Clock, B: Write>(host: &H, stats: Option<Stats>, err: &mut B) {
    if let Some(stats) = stats {
        let _ = stats.print(host, err);
        let _ = err.flush();
    }
}

/// Prints the text of a command, and then renames its files into place.
fn finish<H: Files, A: Write>(host: &H, done: WorkDone<'_>, out: &mut A) -> Result<(), Trouble>
    ensures shown { OnOk result (Appends (A.contents out.old) (A.contents out.new) done.entry.text.items) }
    ensures fault { IfErr result (λ trouble. trouble.failure ≡ failed_device) }
{
    match show(done.text.as_slice(), out) {
        Ok(()) => done.take_places(host),
        Err(error) => {
            done.remove(host);
            Err(unprinted(&error))
        }
    }
}

/// The failure of a command whose text standard output doesn't take.
fn unprinted(error: &io::Error) -> Trouble
    ensures { result.failure ≡ failed_device }
{
    let failed = FailedCall::of(SystemCall::Write, error);
    Trouble::from(Fault::Io).because(Reason::Output(failed))
}

/// Writes the whole text and flushes it.
fn show<A: Write>(text: &[u8], out: &mut A) -> io::Result<()>
    ensures { OnOk result (Appends (A.contents out.old) (A.contents out.new) text.now) }
{
    out.write_all(text)?;
    out.flush()
}

/// Prints to `err` why the program fails, with details if there are the names of files for these and that was written, and
/// returns the exit status: 2 for wrong usage, else 1. The status doesn't depend on whether the writes succeed.
pub fn report<B: Write>(trouble: &Trouble, named: Option<NamedFiles<'_>>, err: &mut B) -> u8
    ensures status { result ≡ status_of trouble.now.failure }
    ensures within { result ≤ 2 }
{
    let written = match &trouble.failure {
        Failure::Usage(text) => err.write_all(text.as_bytes()),
        Failure::Fault(fault) => writeln!(err, "pcompact: fault {fault}"),
        Failure::Differs(difference) => writeln!(err, "pcompact: differs {difference}"),
        Failure::Dump(error) => writeln!(err, "pcompact: {error}"),
        Failure::Generation(error) => writeln!(err, "pcompact: {error}"),
        Failure::Text(error) => writeln!(err, "pcompact: TEXT {error}"),
        Failure::Later { version, wanted } => {
            let (from, to) = (version.number(), wanted.number());
            writeln!(
                err,
                "pcompact: version {from} can't be upgraded to version {to}"
            )
        }
    };
    if let (Ok(()), Some(named)) = (written, named) {
        let _ = trouble.print_details(named, err);
    }
    let _ = err.flush();
    trouble.failure.status()
}
