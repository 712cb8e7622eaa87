use std::fmt;

/// How many columns the longest line has.
const MOST_COLUMNS: usize = 63;

/// A line of a terminal, after which the cursor is at its beginning again, so that the next one overwrites it. What has no room
/// is cut.
#[derive(Clone, Copy)]
pub(crate) struct StatusLine {
    bytes: [u8; MOST_COLUMNS + 1],
    len: usize,
    columns: usize,
}

impl StatusLine {
    /// An empty line of a terminal with this number of columns, of which the last one stays free.
    pub(crate) fn blank(columns: Option<u32>) -> StatusLine {
        let columns = match columns {
            Some(columns) => (columns.saturating_sub(1) as usize).min(MOST_COLUMNS),
            None => MOST_COLUMNS,
        };
        let mut bytes = [b' '; MOST_COLUMNS + 1];
        bytes[columns] = b'\r';
        StatusLine {
            bytes,
            len: 0,
            columns,
        }
    }

    /// The line with this text.
    pub(crate) fn with<D: fmt::Display + Drop>(mut self, text: D) -> StatusLine {
        let _ = fmt::Write::write(&mut self, text);
        self
    }

    /// What is written to the terminal.
    pub(crate) fn bytes(&self) -> &[u8] {
        &self.bytes[..=self.columns.min(MOST_COLUMNS)]
    }
}

impl fmt::Write for StatusLine {
    fn write_str(&mut self, text: &str) -> fmt::Result {
        let end = self.columns.min(MOST_COLUMNS);
        let from = self.len.min(end);
        let count = text.len().min(end - from);
        self.bytes[from..from + count].copy_from_slice(&text.as_bytes()[..count]);
        self.len = from + count;
        Ok(())
    }
}
