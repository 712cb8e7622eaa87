ghost use Rattle.std.specs.Prelude.{◌≡◌};

use std::env::{Env, FillError};

/// Room for the name of a locale. A longer name counts as unknown.
const NAME_ROOM: usize = 128;

/// Room for a number of columns or lines, or for the name of a terminal.
const NUMBER_ROOM: usize = 16;

/// The number of cells of a row without `--width`, where no terminal shows it.
pub const USUAL_WIDTH: u32 = 64;

/// The number of columns of a terminal that doesn't say how wide it is.
const USUAL_COLUMNS: u32 = 80;

/// What standard output can show, and whether a person reads standard error.
#[derive(Clone, Copy)]
pub struct Screen {
    /// Whether standard output was open when the program began.
    pub is_open: bool,
    /// Whether standard output is a terminal.
    pub is_terminal: bool,
    /// Whether standard error is a terminal.
    pub shows_errors: bool,
    /// Whether the locale is a UTF-8 one.
    pub is_utf8: bool,
    /// Whether `NO_COLOR` isn't empty, or `TERM` is `dumb`.
    pub is_plain: bool,
    /// The number of columns, where `COLUMNS` has it.
    pub columns: Option<u32>,
    /// The number of lines, where `LINES` has it.
    pub rows: Option<u32>,
}

impl Screen {
    /// The screen of an open standard output and a standard error that are terminals or not, with the locale of this environment.
    pub fn of<E: Env>(env: &E, is_terminal: bool, shows_errors: bool) -> Screen {
        Screen {
            is_open: true,
            is_terminal,
            shows_errors,
            is_utf8: is_utf8(env),
            is_plain: is_plain(env),
            columns: number_in(env, "COLUMNS"),
            rows: number_in(env, "LINES"),
        }
    }

    /// Whether colours are shown unless an option says otherwise.
    pub fn has_colours(self) -> bool {
        self.is_terminal && !self.is_plain
    }

    /// The number of cells of a row: as requested, else as many as a terminal has columns for beside this many others.
    pub fn cells_beside(self, others: u32, requested: Option<u32>) -> u32 {
        match requested {
            Some(width) => width,
            None if self.is_terminal => {
                let columns = self.columns.unwrap_or(USUAL_COLUMNS);
                columns.saturating_sub(others).max(16).min(1000)
            }
            None => USUAL_WIDTH,
        }
    }
}

/// Whether `NO_COLOR` isn't empty, or `TERM` is `dumb`.
fn is_plain<E: Env>(env: &E) -> bool {
    let mut value = [0; NUMBER_ROOM];
    let is_refused = match env.var("NO_COLOR", &mut value) {
        Ok(len) => 0 < len,
        Err(FillError::TooLong) => true,
        Err(FillError::NotPresent) => false,
    };
    is_refused || is_dumb(env)
}

/// Whether `TERM` is `dumb`.
fn is_dumb<E: Env>(env: &E) -> bool {
    let mut value = [0; NUMBER_ROOM];
    match env.var("TERM", &mut value) {
        Ok(len) => value[..len].eq_ignore_ascii_case(b"dumb"),
        Err(_) => false,
    }
}

/// The number in a variable, if it has one and it isn't 0.
fn number_in<E: Env>(env: &E, name: &str) -> Option<u32> {
    let mut value = [0; NUMBER_ROOM];
    match env.var(name, &mut value) {
        Ok(len) => number_of(&value[..len]),
        Err(_) => None,
    }
}

/// The number that these digits write, unless it is 0.
fn number_of(digits: &[u8]) -> Option<u32> {
    let number: u32 = std::str::from_utf8(digits).ok()?.parse().ok()?;
    if number == 0 { None } else { Some(number) }
}

/// Whether the locale is a UTF-8 one. The first of these variables that is set decides.
fn is_utf8<E: Env>(env: &E) -> bool {
    for name in ["LC_ALL", "LC_CTYPE", "LANG"] {
        let mut value = [0; NAME_ROOM];
        match env.var(name, &mut value) {
            Ok(0) | Err(FillError::NotPresent) => {}
            Ok(len) => return names_utf8(&value[..len]),
            Err(FillError::TooLong) => return false,
        }
    }
    false
}

/// Whether the name of a locale contains `utf-8` or `utf8`, in any case.
fn names_utf8(locale: &[u8]) -> bool {
    locale
        .windows(5)
        .any(|part| part.eq_ignore_ascii_case(b"utf-8"))
        || locale
            .windows(4)
            .any(|part| part.eq_ignore_ascii_case(b"utf8"))
}
