//! What a line of a text should be.
use heap_image::Fault;
use std::error::Error;
use std::fmt;

/// What a line of a text should be or contain.
#[derive(Debug, Clone, Copy, PartialEq, Eq)]
pub enum Expected {
    /// A newline at the end of the last line, or of a line that is longer than any line of a text.
    Newline,
    /// `heap version`.
    Version,
    /// `region-log`, with the greatest that the version allows.
    RegionLog(u32),
    /// `words`, with the most words and the most regions that the version allows.
    Words(u64, u64),
    /// `allowance`.
    Allowance,
    /// `roots`, where the version has them.
    Roots,
    /// No more roots than the heap has words.
    FewRoots(u64),
    /// The line of the word at this address.
    Place(u64),
    /// The kind of a line.
    Kind,
    /// The size of an object.
    Size(u64),
    /// No more references than the header of an object can count.
    FewReferences(u64),
    /// The words of an object.
    Fields,
    /// This number of words after the header of an object.
    FieldCount(u64),
    /// A reference or a root.
    Reference(u64),
    /// A number.
    Number,
    /// An object after a dead run.
    Object(u64),
    /// The length of a dead run.
    Count(u64),
    /// The words of a dead run.
    Dead,
    /// This number of words of a dead run.
    WordCount(u64),
    /// `of`, since the words of the dead run are equal.
    Equal,
    /// The end of the line.
    LineEnd,
    /// The end of the text.
    End,
    /// No object at this address, which is unreachable from the roots.
    Unreached(u64),
    /// An object at this address, where the text has dead words or the middle of another object.
    Reached(u64),
    /// A heap that has no such fault as an image.
    Valid(Fault),
    /// The only spelling of the line. No known text causes this.
    Spelling,
}

impl Expected {
    /// The text up to the first number, and all of it where it has none.
    fn beginning(self) -> &'static str {
        match self {
            Expected::Newline => "a newline at the end of the line",
            Expected::Version => "`heap version 1`, `heap version 2` or `heap version 3`",
            Expected::RegionLog(_) => "`region-log K`, where K is 3 to ",
            Expected::Words(..) => "`words N`, where N is 1 to ",
            Expected::Allowance => "`allowance M`, where M is a number below 2^64",
            Expected::Roots => "`roots`, and behind it `null` or `@` and an address for each root",
            Expected::Place(_) => "a line that begins with `@",
            Expected::Kind => "`object` or `dead` behind the address",
            Expected::Size(_) => "the size of the object, header included: 1 to ",
            Expected::Fields => "`refs` or `data` behind the size",
            Expected::Reference(_) => "`null`, or `@` and an address below ",
            Expected::Number => "a number below 2^64, decimal and without leading zeros",
            Expected::Object(_) | Expected::Reached(_) => "an object at @",
            Expected::Count(_) => "the number of dead words: 1 to ",
            Expected::Dead => {
                "`of` and a number, or `words` and numbers, behind the number of dead words"
            }
            Expected::Equal => "`of` and one number, since the words are equal",
            Expected::LineEnd => "the end of the line",
            Expected::End => "no more lines, since all words are there",
            Expected::Unreached(_) => "dead words, since nothing leads to @",
            Expected::Valid(_) => "a valid object, where this is fault ",
            Expected::Spelling => "the line as it is written for this heap",
            Expected::FewRoots(_)
            | Expected::FewReferences(_)
            | Expected::FieldCount(_)
            | Expected::WordCount(_) => "",
        }
    }

    /// The first number.
    fn number(self) -> Option<u64> {
        match self {
            Expected::RegionLog(number) => Some(u64::from(number)),
            Expected::Words(number, _)
            | Expected::FewRoots(number)
            | Expected::Place(number)
            | Expected::Size(number)
            | Expected::FewReferences(number)
            | Expected::FieldCount(number)
            | Expected::Reference(number)
            | Expected::Object(number)
            | Expected::Count(number)
            | Expected::WordCount(number)
            | Expected::Unreached(number)
            | Expected::Reached(number) => Some(number),
            _ => None,
        }
    }

    /// The text behind the first number, up to the second.
    fn ending(self) -> &'static str {
        match self {
            Expected::Words(..) => " and makes whole regions, ",
            Expected::FewRoots(_) => " roots at most",
            Expected::Place(_) => "`",
            Expected::FewReferences(_) => " references at most",
            Expected::FieldCount(_) => " references and data words in all",
            Expected::Object(_) => ", since dead words in a row have one line",
            Expected::WordCount(_) => " numbers behind `words`",
            Expected::Unreached(_) => " from the roots",
            Expected::Reached(_) => ", to which a root or a reference leads",
            _ => "",
        }
    }
}

impl fmt::Display for Expected {
    fn fmt<W: fmt::Write>(&self, f: &mut fmt::Formatter<W>) -> fmt::Result {
        f.write_str(self.beginning())?;
        if let Some(number) = self.number() {
            write!(f, "{number}{}", self.ending())?;
        }
        match self {
            Expected::Words(_, regions) => write!(f, "{regions} at most"),
            Expected::Valid(fault) => write!(f, "{fault}"),
            _ => Ok(()),
        }
    }
}

impl Error for Expected {}
