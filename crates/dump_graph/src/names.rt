//! The names of the classes of dumps, and numbers that two dumps have in common.
use crate::reading::DumpGraph;
use dump_objects::{CLASS_OBJECTS, Inventory, Texts};
use object_pairs::{Object, Root};
use std::alloc::{AllocError, Global};

/// How many bytes of a name are shown.
const MOST_SHOWN: usize = 500;

/// The kind of the roots that stand for classes. No record of a root has this tag.
const BY_NAME: u8 = 0;

/// The names of the numbers that are no class of the dump: arrays of an unknown class, arrays of primitive values, and classes.
const FIRST_NAMES: [&str; 10] = [
    "[?",
    "[Z",
    "[C",
    "[F",
    "[D",
    "[B",
    "[S",
    "[I",
    "[J",
    "java.lang.Class",
];

/// The names of the classes of a dump by their numbers: those of instances and arrays, then those of class objects.
pub(crate) fn names_of(
    alloc: Global,
    inventory: &Inventory,
    texts: &Texts,
) -> Result<Vec<String>, AllocError> {
    let mut names = Vec::new(alloc);
    for name in FIRST_NAMES {
        names.push(String::from_str(alloc, name)?)?;
    }
    for _ in 0..inventory.classes.len() {
        names.push(String::from_str(alloc, "?")?)?;
    }
    for index in 0..inventory.names.len() {
        set_name(alloc, inventory, texts, index, &mut names)?;
    }
    for index in 0..names.len() {
        let name = class_object_name(alloc, &names, index)?;
        names.push(name)?;
    }
    Ok(names)
}

/// Sets the name of a class, the one with this index among the names of the dump.
fn set_name(
    alloc: Global,
    inventory: &Inventory,
    texts: &Texts,
    index: usize,
    names: &mut Vec<String>,
) -> Result<(), AllocError> {
    let Some(name) = inventory.names.as_slice().get(index) else {
        return Ok(());
    };
    let class = inventory
        .objects
        .class_number(&inventory.classes, name.class);
    let text = match inventory.names.index_of_text(name.text) {
        Some(index) => texts.text(texts.place(index)),
        None => &[],
    };
    if class == 0 || text.is_empty() {
        return Ok(());
    }
    let number = (class as usize).saturating_add(CLASS_OBJECTS as usize);
    let shown = shown_name(alloc, text)?;
    if let Some(kept) = names.get_mut(number) {
        *kept = shown;
    }
    Ok(())
}

/// The name of the objects that are the class with this number.
fn class_object_name(alloc: Global, names: &[String], index: usize) -> Result<String, AllocError> {
    match names.get(index) {
        Some(name) => format!(in alloc; "class {name}"),
        None => String::from_str(alloc, "class ?"),
    }
}

/// A name as it is shown: a dot for `/`, each other visible character as it is, and `?` for any other byte; at most the first 500 bytes.
fn shown_name(alloc: Global, text: &[u8]) -> Result<String, AllocError> {
    let mut shown = String::new(alloc);
    for byte in text.iter().take(MOST_SHOWN) {
        shown.push(shown_byte(*byte))?;
    }
    Ok(shown)
}

/// A byte of a name as it is shown.
fn shown_byte(byte: u8) -> char {
    match byte {
        b'/' => '.',
        b'!'..=b'~' => char::from(byte),
        _ => '?',
    }
}

/// Numbers the classes of two dumps anew, so that those of one name have one number, and adds the class objects to the roots, by the
/// numbers of their names. Sorts the roots. Returns the names by the new numbers.
pub fn number_classes(
    alloc: Global,
    one: &mut DumpGraph,
    other: &mut DumpGraph,
) -> Result<Vec<String>, AllocError> {
    let mut names = Vec::new(alloc);
    for name in one.names.iter().chain(other.names.iter()) {
        names.push(String::from_str(alloc, name.as_str())?)?;
    }
    names.sort()?;
    names.dedup();
    renumber(alloc, one, &names)?;
    renumber(alloc, other, &names)?;
    Ok(names)
}

/// Numbers the classes of a dump by their places in these names, and adds its class objects to the roots, which it sorts.
fn renumber(alloc: Global, dump: &mut DumpGraph, names: &[String]) -> Result<(), AllocError> {
    let numbers = numbers_in(alloc, &dump.names, names)?;
    let kinds = dump.kinds;
    for (index, object) in dump.graph.objects.iter_mut().enumerate() {
        let is_class = object.class >= kinds;
        object.class = numbers.get(object.class as usize).copied().unwrap_or(0);
        if is_class {
            dump.graph.roots.push(root_by_name(object, index))?;
        }
    }
    dump.graph.roots.sort_by_key(|root| root.place)?;
    dump.graph.roots.sort_by_key(|root| root.kind)?;
    Ok(())
}

/// The root that stands for the class object with this index.
fn root_by_name(object: &Object, index: usize) -> Root {
    Root {
        kind: BY_NAME,
        place: u64::from(object.class),
        object: u32::try_from(index).unwrap_or(u32::MAX),
    }
}

/// The places of these names among sorted ones that have them all.
fn numbers_in(alloc: Global, names: &[String], sorted: &[String]) -> Result<Vec<u32>, AllocError> {
    let mut numbers = Vec::with_capacity(alloc, names.len())?;
    for name in names {
        let place = sorted.binary_search(name).unwrap_or(0);
        numbers.push(u32::try_from(place).unwrap_or(0))?;
    }
    Ok(numbers)
}
