//! The commands with their arguments.
use crate::beginning::have_beginning;
use crate::commands::assemble::Assemble;
use crate::commands::collect::Collect;
use crate::commands::compare::Compare;
use crate::commands::generate::Generate;
use crate::commands::import::Import;
use crate::commands::map::Map;
use crate::commands::order::Order;
use crate::commands::record::Record;
use crate::commands::reduce::Reduce;
use crate::commands::replay::Replay;
use crate::commands::summary::Summary;
use crate::commands::text::Text;
use crate::commands::timeline::Timeline;
use crate::commands::upgrade::Upgrade;
use crate::commands::verify::Verify;
use crate::respelled::When;

/// A command with its arguments, or a text to show.
#[derive(Drop)]
pub enum Request<'a> {
    Board,
    /// `board` with `--steps`.
    BoardSteps,
    Summary(Summary<'a>),
    Collect(Collect<'a>),
    Verify(Verify<'a>),
    Record(Record<'a>),
    Replay(Replay<'a>),
    Upgrade(Upgrade<'a>),
    Import(Import<'a>),
    Compare(Compare<'a>),
    Generate(Generate<'a>),
    Reduce(Reduce<'a>),
    Order(Order<'a>),
    Text(Text<'a>),
    Assemble(Assemble<'a>),
    Map(Map<'a>),
    Timeline(Timeline<'a>),
    /// Show help or the version. The text has whole lines.
    Show(String),
}

impl<'a> Request<'a> {
    ghost use Rattle.std.specs.Prelude.{◌≡◌, ◌≢◌, codes, false, None, ℕ, List, IsTrue};
    ghost use Rattle.command_line.specs.CommandLine.{HaveBeginning};
    ghost use Rattle.command_line.specs.Request.{IsFor, asks_json, asks_stats, asks_steps, rows_of};

    /// The request of these arguments, without a histogram or steps if none of them begins with the name of that option. Then it
    /// asks for none; the test lets contracts speak of arguments.
    pub fn as_asked(self, words: &[String]) -> Request<'a>
        ensures name { (name : List ℕ) → IsFor name self.entry → IsFor name result }
        ensures histogram { rows_of result ≢ None → HaveBeginning (codes "--histogram") words.now }
        ensures steps { IsTrue (asks_steps result) → HaveBeginning (codes "--steps") words.now }
    {
        match self {
            Request::Import(call) => Request::Import(call.as_asked(words)),
            Request::BoardSteps => {
                if have_beginning(words, "--steps") {
                    Request::BoardSteps
                } else {
                    Request::Board
                }
            }
            request => request,
        }
    }

    /// Whether to print timings and peak memory. A command without `--stats` prints none.
    pub fn asks_stats(&self) -> bool
        ensures { result ≡ asks_stats self.now }
    {
        match self {
            Request::Collect(call) => call.stats,
            Request::Verify(call) => call.stats,
            Request::Record(call) => call.stats,
            Request::Import(call) => call.stats,
            _ => false,
        }
    }

    /// Whether to print a JSON object. A command without `--json` prints none.
    pub fn asks_json(&self) -> bool
        ensures { result ≡ asks_json self.now }
    {
        match self {
            Request::Summary(call) => call.json,
            Request::Collect(call) => call.json,
            Request::Verify(call) => call.json,
            Request::Import(call) => call.json,
            Request::Order(call) => call.json,
            _ => false,
        }
    }

    /// Whether the exit status of a good call may be other than 0. Only that of `compare` may be.
    pub fn gives_verdict(&self) -> bool
        ensures compare { IsTrue result → IsFor (codes "compare") self.now }
        ensures board { IsFor (codes "board") self.now → result ≡ false }
    {
        match self {
            Request::Compare(_) => true,
            _ => false,
        }
    }

    /// The request with colours as `--color` says by a value. A command without that option stays as it is.
    pub fn with_color(self, when: When) -> Request<'a>
        ensures { (name : List ℕ) → IsFor name self.entry → IsFor name result }
    {
        match self {
            Request::Map(call) => Request::Map(Map {
                look: call.look.with_color(when),
                ..call
            }),
            Request::Timeline(call) => Request::Timeline(Timeline {
                look: call.look.with_color(when),
                ..call
            }),
            other => other,
        }
    }
}
