//! The lines of `verify --explain`.
ghost use Rattle.std.specs.Prelude.{◌≤◌, ◌*◌, ◌^◌, length};
ghost use Rattle.object_heap.specs.HeapImage.{AreBlocks};

use collector::{
    ExplainedWord, Explanation, Found, Lead, Moved, OtherLive, OtherRoot, Part, explain,
};
use command_support::Watched;
use heap_image::{
    Body, FRONT_BYTES, Fault, FileStore, Heap, Image, Version, all_processors, blocks_joined,
    body_at, extent_after_front, header,
};
use std::alloc::Global;
use std::fmt;
use std::fmt::Write;
use std::fs::OpenFile;
use std::os::unix::fs::FileExt;
use std::thread::Threads;
use verification::{Origin, OtherPrefix, other_prefix};

/// The lines on an image that differs from the compaction of another: which of its sizes differ, and then as
/// [`explanation_of_words`].
pub fn explanation_of_images(
    alloc: Global,
    was: Image,
    is: &Image,
    ignore_free: bool,
    threads: &(impl Threads + Sync),
) -> Result<String, Fault> {
    let sizes = Sizes::of(&was, is);
    let heap = is.heap();
    let has_roots = is.version().has_roots();
    let tail = if has_roots { is.roots() } else { is.live() };
    let found = contents(&heap, tail, has_roots);
    let words = explanation_of_words(alloc, was, found, ignore_free, threads)?;
    Ok(format!(in alloc; "{sizes}{words}")?)
}

/// The lines on a file that is no valid image: if it has a front, how many bytes it lacks, or as [`explanation_of_words`].
pub fn explanation_of_file<R: AllocGlobal + Threads + Sync, F: OpenFile + FileExt + Sync + Drop>(
    rt: &R,
    was: Image,
    after: &Watched<'_, F>,
    ignore_free: bool,
) -> Option<String> {
    let mut front = [0; FRONT_BYTES];
    let Ok(FRONT_BYTES) = after.file().read_at(&mut front, 0) else {
        return None;
    };
    let extent = extent_after_front(&front)?;
    let wanted = extent.end()?;
    let length = after.metadata().ok()?.len();
    if length < wanted {
        return format!(in rt.alloc(); "pcompact: the image has {length} of {wanted} bytes\n").ok();
    }
    let store = FileStore::new(after.file());
    let body = body_at(rt.alloc(), &store, extent, 1, rt)?;
    let heap = heap_of(&body, extent.size.region_log)?;
    let tail = body.tail.as_slice();
    // The last byte of the magic is the version.
    let has_roots = front[7] != b'1';
    let found = contents(&heap, tail, has_roots);
    let listed = Listed::of(&was, has_roots, tail.len());
    let words = explanation_of_words(rt.alloc(), was, found, ignore_free, rt).ok()?;
    format!(in rt.alloc(); "{listed}{words}").ok()
}

/// The heap of a body, if it isn't too large.
fn heap_of<'a>(body: &'a Body, region_log: u32) -> Option<Heap<'a>>
    requires log { region_log ≤ 20 }
    requires blocks { AreBlocks region_log body.now.regions.items }
    requires few { length body.now.regions.items * 2 ^ region_log ≤ 137438953472 }
{
    blocks_joined();
    let words = (body.regions.len() as u64) << region_log;
    let most = Version::Three.max_words();
    if words > most {
        return None;
    }
    Some(Heap::new(body.regions.as_slice(), region_log))
}

/// What a file holds: after its words come the roots, or the live addresses.
fn contents<'a>(heap: &'a Heap<'a>, tail: &'a [u64], has_roots: bool) -> Found<'a> {
    if has_roots {
        Found {
            heap,
            live: &[],
            roots: tail,
        }
    } else {
        Found {
            heap,
            live: tail,
            roots: &[],
        }
    }
}

/// The lines on what should be the compaction of an image: how many words differ, and which; whether they are those of a
/// collection with another dense prefix; for each of the first ten where it lies, which word is expected and which is found,
/// and where that one leads or stands, too; and the first live address and the first root that differ.
fn explanation_of_words(
    alloc: Global,
    was: Image,
    found: Found<'_>,
    ignore_free: bool,
    threads: &(impl Threads + Sync),
) -> Result<String, Fault> {
    let verifier = all_processors(threads);
    let (words, region_log) = (was.len(), was.region_log());
    match explain(alloc, &was, found, ignore_free, &verifier)? {
        Some(explanation) => {
            let prefix = match explanation.last {
                Some(_) => other_prefix(alloc, was, found.heap, ignore_free, &verifier)?,
                None => None,
            };
            let lines = Lines {
                explanation: &explanation,
                prefix,
                words,
                region_log,
            };
            Ok(format!(in alloc; "{lines}")?)
        }
        None => Ok(format!(in alloc; "pcompact: the words are not compared\n")?),
    }
}

/// The sizes of two images, of which those that differ are shown.
#[derive(Clone, Copy)]
struct Sizes {
    sizes: [Listed; 6],
}

impl Sizes {
    fn of(was: &Image, is: &Image) -> Sizes {
        let (log, other_log) = (was.region_log(), is.region_log());
        let (version, other) = (was.version().number(), is.version().number());
        Sizes {
            sizes: [
                Listed::new("region-log", u64::from(log), u64::from(other_log)),
                Listed::new("words", was.len(), is.len()),
                Listed::new("allowance", was.allowance(), is.allowance()),
                Listed::new("version", u64::from(version), u64::from(other)),
                Listed::counted("live objects", was.live(), is.live()),
                Listed::counted("roots", was.roots(), is.roots()),
            ],
        }
    }
}

impl fmt::Display for Sizes {
    fn fmt<W: fmt::Write>(&self, f: &mut fmt::Formatter<W>) -> fmt::Result {
        for size in &self.sizes {
            write_size(size.name, size.expected, size.found, f)?;
        }
        Ok(())
    }
}

/// A size that is expected, and the one that is found.
#[derive(Clone, Copy)]
struct Listed {
    name: &'static str,
    expected: u64,
    found: u64,
}

impl Listed {
    fn new(name: &'static str, expected: u64, found: u64) -> Listed {
        Listed {
            name,
            expected,
            found,
        }
    }

    /// The numbers of two lists.
    fn counted(name: &'static str, expected: &[u64], found: &[u64]) -> Listed {
        Listed::new(name, expected.len() as u64, found.len() as u64)
    }

    fn of(was: &Image, has_roots: bool, found: usize) -> Listed {
        let (name, expected) = if has_roots {
            ("roots", was.roots().len())
        } else {
            ("live objects", was.live().len())
        };
        Listed::new(name, expected as u64, found as u64)
    }
}

impl fmt::Display for Listed {
    fn fmt<W: fmt::Write>(&self, f: &mut fmt::Formatter<W>) -> fmt::Result {
        write_size(self.name, self.expected, self.found, f)
    }
}

/// Writes a size that differs.
fn write_size<W: fmt::Write>(
    name: &str,
    expected: u64,
    found: u64,
    f: &mut fmt::Formatter<W>,
) -> fmt::Result {
    if found == expected {
        return Ok(());
    }
    writeln!(f, "pcompact: {name} expected {expected} found {found}")
}

/// The lines of an explanation.
#[derive(Clone, Copy)]
struct Lines<'a> {
    explanation: &'a Explanation,
    prefix: Option<OtherPrefix>,
    /// The number of words of the heap.
    words: u64,
    region_log: u32,
}

impl fmt::Display for Lines<'_> {
    fn fmt<W: fmt::Write>(&self, f: &mut fmt::Formatter<W>) -> fmt::Result {
        let explanation = self.explanation;
        let first = explanation.first.as_slice();
        match (first.first(), explanation.last) {
            (Some(first), Some(last)) => {
                let region_log = self.region_log;
                let range = WordRange::of(first.word.address, last, region_log);
                write_range(explanation.count, range, f)?;
            }
            _ => writeln!(f, "pcompact: no word differs")?,
        }
        if let Some(prefix) = self.prefix {
            write_prefix(prefix, f)?;
        }
        for word in first {
            write_word(word, self.words, f)?;
        }
        if let Some(live) = explanation.live {
            write_live(live, f)?;
        }
        match explanation.root {
            Some(root) => write_root(root, f),
            None => Ok(()),
        }
    }
}

/// The addresses of the first and the last word that differ, and their regions.
#[derive(Clone, Copy)]
struct WordRange {
    first: u64,
    last: u64,
    first_region: u64,
    last_region: u64,
}

impl WordRange {
    fn of(first: u64, last: u64, region_log: u32) -> WordRange {
        WordRange {
            first,
            last,
            first_region: first.checked_shr(region_log).unwrap_or(0),
            last_region: last.checked_shr(region_log).unwrap_or(0),
        }
    }
}

/// Writes how many words differ, and from where to where.
fn write_range<W: fmt::Write>(
    count: u64,
    range: WordRange,
    f: &mut fmt::Formatter<W>,
) -> fmt::Result {
    let (first, last) = (range.first, range.last);
    let (region, last_region) = (range.first_region, range.last_region);
    if count == 1 {
        return writeln!(
            f,
            "pcompact: 1 word differs, at {first}, in region {region}"
        );
    }
    write!(
        f,
        "pcompact: {count} words differ, from {first} to {last}, "
    )?;
    if region == last_region {
        writeln!(f, "in region {region}")
    } else {
        writeln!(f, "in regions {region} to {last_region}")
    }
}

/// Writes that the words are those of a collection with another dense prefix.
fn write_prefix<W: fmt::Write>(prefix: OtherPrefix, f: &mut fmt::Formatter<W>) -> fmt::Result {
    let OtherPrefix { expected, found } = prefix;
    writeln!(
        f,
        "pcompact: the prefix should end at {expected}, not at {found}"
    )
}

/// Writes the line of a word of a heap of this many words.
fn write_word<W: fmt::Write>(
    explained: &ExplainedWord,
    words: u64,
    f: &mut fmt::Formatter<W>,
) -> fmt::Result {
    let word = explained.word;
    let part = PartName(explained.part);
    write!(f, "pcompact: word {} is {part}, ", word.address)?;
    match explained.lead {
        Some(lead) => {
            let expected = Reference(word.expected);
            let found = Reference(word.found);
            let lead = LeadName(lead);
            write!(f, "expected {expected}, found {found}{lead}")?;
        }
        None => {
            let room = room_of_header(explained.part, word.address, words);
            let expected = WordName::new(word.expected, room);
            let found = WordName::new(word.found, room);
            write!(f, "expected {expected}, found {found}")?;
        }
    }
    // A reference that wasn't redirected is told to be that.
    match (explained.lead, explained.origin) {
        (Some(Lead::Unchanged), _) | (_, None) => writeln!(f),
        (_, Some(origin)) => {
            let origin = OriginName(origin);
            writeln!(f, "{origin}")
        }
    }
}

/// The number of words that an object can have at this address, if its header may stand there.
fn room_of_header(part: Part, address: u64, words: u64) -> u64 {
    match part {
        Part::Header(_) | Part::Filler | Part::Free => words.saturating_sub(address),
        Part::Field(_, _) | Part::Data(_, _) => 0,
    }
}

/// A word, told as a header if it is that of an object or filler that fits into this many words.
#[derive(Clone, Copy)]
struct WordName {
    word: u64,
    size: u32,
    references: u32,
    kind: HeaderKind,
}

/// What a header is of.
#[derive(Clone, Copy)]
enum HeaderKind {
    Object,
    Filler,
    None,
}

impl WordName {
    fn new(word: u64, room: u64) -> WordName {
        let size = header::size(word);
        let references = header::references(word);
        let is_filler = size > 0 && word == header::filler(size);
        let is_object = header::kind(word) == header::OBJECT && references < size;
        let kind = if u64::from(size) > room {
            HeaderKind::None
        } else if is_object {
            HeaderKind::Object
        } else if is_filler {
            HeaderKind::Filler
        } else {
            HeaderKind::None
        };
        WordName {
            word,
            size,
            references,
            kind,
        }
    }
}

impl fmt::Display for WordName {
    fn fmt<W: fmt::Write>(&self, f: &mut fmt::Formatter<W>) -> fmt::Result {
        let size = Counted::new(u64::from(self.size), "word");
        let references = Counted::new(u64::from(self.references), "reference");
        match self.kind {
            HeaderKind::Object => write!(f, "object of {size}, {references}"),
            HeaderKind::Filler => write!(f, "filler of {size}"),
            HeaderKind::None => write!(f, "{:016x}", self.word),
        }
    }
}

/// A number of things with their name.
#[derive(Clone, Copy)]
struct Counted {
    count: u64,
    name: &'static str,
}

impl Counted {
    fn new(count: u64, name: &'static str) -> Counted {
        Counted { count, name }
    }
}

impl fmt::Display for Counted {
    fn fmt<W: fmt::Write>(&self, f: &mut fmt::Formatter<W>) -> fmt::Result {
        let Counted { count, name } = *self;
        if count == 1 {
            write!(f, "1 {name}")
        } else {
            write!(f, "{count} {name}s")
        }
    }
}

#[derive(Clone, Copy)]
struct OriginName(Origin);

impl fmt::Display for OriginName {
    fn fmt<W: fmt::Write>(&self, f: &mut fmt::Formatter<W>) -> fmt::Result {
        match self.0 {
            Origin::Before => f.write_str(", the word that was here before"),
            Origin::Neighbour(moved) => {
                let object = ObjectName(moved);
                write!(f, ", as {object} has it")
            }
        }
    }
}

/// Writes the line of a live address.
fn write_live<W: fmt::Write>(live: OtherLive, f: &mut fmt::Formatter<W>) -> fmt::Result {
    writeln!(
        f,
        "pcompact: live {} expected {}, found {}",
        live.index, live.expected, live.found
    )
}

/// Writes the line of a root.
fn write_root<W: fmt::Write>(root: OtherRoot, f: &mut fmt::Formatter<W>) -> fmt::Result {
    let expected = Reference(root.expected);
    let found = Reference(root.found);
    let lead = LeadName(root.lead);
    writeln!(
        f,
        "pcompact: root {} expected {expected}, found {found}{lead}",
        root.index
    )
}

/// A reference, as the address to which it leads.
#[derive(Clone, Copy)]
struct Reference(u64);

impl fmt::Display for Reference {
    fn fmt<W: fmt::Write>(&self, f: &mut fmt::Formatter<W>) -> fmt::Result {
        match self.0.checked_sub(1) {
            None => f.write_str("null"),
            Some(address) => write!(f, "-> {address}"),
        }
    }
}

#[derive(Clone, Copy)]
struct ObjectName(Moved);

impl fmt::Display for ObjectName {
    fn fmt<W: fmt::Write>(&self, f: &mut fmt::Formatter<W>) -> fmt::Result {
        let Moved { old, new } = self.0;
        write!(f, "the object at {new} (old {old})")
    }
}

#[derive(Clone, Copy)]
struct PartName(Part);

impl fmt::Display for PartName {
    fn fmt<W: fmt::Write>(&self, f: &mut fmt::Formatter<W>) -> fmt::Result {
        match self.0 {
            Part::Header(moved) => {
                let object = ObjectName(moved);
                write!(f, "the header of {object}")
            }
            Part::Field(moved, field) => {
                let object = ObjectName(moved);
                write!(f, "field {field} of {object}")
            }
            Part::Data(moved, index) => {
                let object = ObjectName(moved);
                write!(f, "data word {index} of {object}")
            }
            Part::Filler => f.write_str("in a filler"),
            Part::Free => f.write_str("free"),
        }
    }
}

#[derive(Clone, Copy)]
struct LeadName(Lead);

impl fmt::Display for LeadName {
    fn fmt<W: fmt::Write>(&self, f: &mut fmt::Formatter<W>) -> fmt::Result {
        match self.0 {
            Lead::Null => Ok(()),
            Lead::Outside => f.write_str(", above the heap"),
            Lead::Unchanged => f.write_str(", the old address"),
            Lead::To(Part::Header(moved)) => {
                let object = ObjectName(moved);
                write!(f, ", {object}")
            }
            Lead::To(part) => {
                let part = PartName(part);
                write!(f, ", which is {part}")
            }
        }
    }
}
