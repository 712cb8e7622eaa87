//! The names of the classes in a list of objects.
ghost use Rattle.std.specs.Prelude.{◌≡◌, ◌≤◌, ◌++◌, OnOk, string_bytes, option_copied, flat_map, length};
ghost use Rattle.heap_dump.specs.ClassNames.{class_of, cut_name, inner_name, is_shown, most_padding, name_of, newlines, shown_byte};

use super::class_kind::ClassKind;
use super::class_number::{FIRST_CLASS, first_name};
use dump_objects::{CLASS_OBJECTS, Inventory, Texts};
use std::alloc::{AllocError, Global};

/// The most bytes of a name in the dump that are shown.
const MOST_SHOWN: usize = 500;

/// No name is shown with more bytes: each of these as `\xNN`, the mark, and 16 digits.
const LONGEST: usize = 4 * MOST_SHOWN + 20;

/// A class of the dump.
#[derive(Clone, Copy)]
struct NamedClass {
    id: u64,
    /// The range of its name, which is empty if the dump has none.
    start: usize,
    end: usize,
    kind: ClassKind,
}

/// The names of classes by their numbers: 0 is arrays of a class that is missing from the dump, 1 to 8 are arrays of
/// primitive values, 9 is class objects of an unnamed class, and the others are the classes in the order of the dump.
#[derive(Drop)]
pub struct ClassNames {
    /// All names, as the dump has them.
    bytes: Vec<u8>,
    classes: Vec<NamedClass>,
}

impl ClassNames {
    /// The names of the classes of an inventory, if they are wanted.
    pub(crate) fn of(
        alloc: Global,
        inventory: &Inventory,
        texts: Texts,
    ) -> Result<ClassNames, AllocError> {
        let mut classes = unnamed_classes(alloc, inventory)?;
        name_classes(classes.as_mut_slice(), inventory, &texts);
        Ok(ClassNames {
            bytes: texts.into_bytes(),
            classes,
        })
    }

    /// The number of class objects: that of the first class named `java.lang.Class`, or 9.
    pub(crate) fn number_of_class_objects(&self) -> u32 {
        let mut number = CLASS_OBJECTS;
        for class in self.classes.as_slice() {
            number = number.saturating_add(1);
            if let ClassKind::Classes = class.kind {
                return number;
            }
        }
        CLASS_OBJECTS
    }

    /// The class of the dump with this number, if it is one.
    fn class(&self, number: u32) -> Option<NamedClass>
        ensures { result ≡ class_of self.now number }
    {
        if number < FIRST_CLASS {
            return None;
        }
        self.classes.get((number - FIRST_CLASS) as usize).copied()
    }

    /// The name of a class in the dump.
    fn inner_name(&self, class: NamedClass) -> &[u8]
        ensures { result.now ≡ inner_name self.now class }
    {
        match self.bytes.get(class.start..class.end) {
            Some(name) => name,
            None => &[],
        }
    }

    /// The most words by which an object of this class may be larger in the machine than in an image.
    pub(crate) fn most_padding(&self, number: u32) -> u64
        ensures { result ≡ most_padding self.now number }
    {
        let kind = match self.class(number) {
            Some(class) => class.kind,
            None if number == CLASS_OBJECTS => ClassKind::Classes,
            None => ClassKind::Arrays,
        };
        kind.most_padding()
    }

    /// No name that [`push_name`](ClassNames::push_name) appends has more bytes.
    pub fn longest(&self) -> usize {
        let mut longest = 0;
        for class in self.classes.as_slice() {
            longest = longest.max(class.end.saturating_sub(class.start));
        }
        longest.saturating_mul(4).clamp(32, LONGEST)
    }

    /// Appends the name of the class with this number: with dots between packages, and each byte that is no visible
    /// ASCII character, and `\`, as `\xNN`. A class without a name is `class@` and its id in hexadecimal digits. Of a name
    /// of more than 500 bytes the first 500 are followed by `...@` and that id.
    #[tactic(auto, using(crate::proofs::Lemmas::Names::unnamed_short, crate::proofs::Lemmas::Names::unnamed_line, crate::proofs::Lemmas::Names::first_line))]
    pub fn push_name(&self, number: u32, line: &mut String) -> Result<(), AllocError>
        ensures name { OnOk result (string_bytes line.new ≡ string_bytes line.old ++ name_of self.now number) }
        ensures short { OnOk result (length (name_of self.now number) ≤ 2020) }
        ensures no_line { OnOk result (newlines (name_of self.now number) ≡ 0) }
    {
        match self.class(number) {
            Some(class) if class.start < class.end => {
                push_cut(self.inner_name(class), class.id, line)
            }
            Some(class) => write!(line, "class@{:x}", class.id),
            None => line.push_str(first_name(number)),
        }
    }
}

/// The classes in the order of the dump, if they are wanted, without their names.
fn unnamed_classes(alloc: Global, inventory: &Inventory) -> Result<Vec<NamedClass>, AllocError> {
    let mut classes = Vec::new(alloc);
    if !inventory.names.wants_classes() {
        return Ok(classes);
    }
    for class in inventory.classes.as_slice() {
        classes.push(NamedClass {
            id: class.id,
            start: 0,
            end: 0,
            kind: ClassKind::Instances,
        })?;
    }
    Ok(classes)
}

/// Names these classes. Of several names of one class it has any.
fn name_classes(classes: &mut [NamedClass], inventory: &Inventory, texts: &Texts) {
    for name in inventory.names.as_slice() {
        let number = inventory
            .objects
            .class_number(&inventory.classes, name.class);
        let index = inventory.names.index_of_text(name.text);
        let place = texts.place(index.unwrap_or(usize::MAX));
        if let Some(class) = classes.get_mut((number as usize).wrapping_sub(1)) {
            class.start = place.start;
            class.end = place.end;
            class.kind = ClassKind::of_name(texts.text(place));
        }
    }
}

/// Appends a name of the class with this id. Of a long name the first bytes are followed by a mark and the id.
#[tactic(auto, using(crate::proofs::Lemmas::Names::cut_short, crate::proofs::Lemmas::Names::cut_line))]
fn push_cut(name: &[u8], id: u64, line: &mut String) -> Result<(), AllocError>
    ensures name { OnOk result (string_bytes line.new ≡ string_bytes line.old ++ cut_name id name.now) }
    ensures short { OnOk result (length (cut_name id name.now) ≤ 2020) }
    ensures no_line { OnOk result (newlines (cut_name id name.now) ≡ 0) }
{
    if name.len() <= MOST_SHOWN {
        return push_bytes(name, line);
    }
    push_bytes(&name[..MOST_SHOWN], line)?;
    write!(line, "...@{id:x}")
}

/// Appends the bytes of a name.
fn push_bytes(name: &[u8], line: &mut String) -> Result<(), AllocError>
    ensures { OnOk result (string_bytes line.new ≡ string_bytes line.old ++ flat_map shown_byte name.now) }
{
    for byte in name {
        push_byte(*byte, line)?;
    }
    Ok(())
}

/// Appends a byte of a name.
fn push_byte(byte: u8, line: &mut String) -> Result<(), AllocError>
    ensures { OnOk result (string_bytes line.new ≡ string_bytes line.old ++ shown_byte byte) }
{
    if byte == b'/' {
        return line.push_str(".");
    }
    if is_shown(byte) {
        return line.push(byte as char);
    }
    write!(line, "\\x{byte:02x}")
}

/// Whether a byte is a visible character but `\`.
fn is_shown(byte: u8) -> bool
    ensures { result ≡ is_shown byte }
{
    b'!' <= byte && byte <= b'[' || b']' <= byte && byte <= b'~'
}
