//! The list of the objects of an imported image.
ghost use Rattle.std.specs.Prelude.{◌≡◌, ◌++◌, ℕ, List, OnOk, length, string_bytes};
ghost use Rattle.std.specs.Io.KnownBytes.{Appends};
ghost use Rattle.heap_commands.specs.ObjectList.{HasRows, list_text, object_line, state_of};

use super::histogram::bytes_of;
use heap_dump::{ClassNames, ListedImport, ListedObject};
use heap_image::{Fault, Outlet, give_all};
use std::alloc::{AllocError, Global};

/// How many bytes are collected before they are written.
const PIECE: usize = 65_536;

/// Room for the numbers and words of a line.
const LINE_ROOM: usize = 96;

/// Room for the lines that are collected before they are written.
pub fn list_room(alloc: Global, names: &ClassNames) -> Result<String, AllocError> {
    String::with_capacity(alloc, names.longest().saturating_add(PIECE + LINE_ROOM))
}

/// Writes a line for each object of an image, in the order of addresses: its address, its id in the dump, its class, its
/// bytes in the image, and `live` or `dead`. `room` is that of [`list_room`]: then nothing is allocated.
///
/// Fault 13 if the device fails, and 11 if memory runs out.
pub fn give_list<O: Outlet>(
    import: &ListedImport,
    room: String,
    output: &mut O,
) -> Result<(), Fault>
    ensures list { OnOk result (Appends (O.took output.old) (O.took output.new)
        (list_text import.now.names import.now.objects.items)) }
    // However long the names of the dump are, and whatever bytes they have.
    ensures rows { OnOk result (HasRows (list_text import.now.names import.now.objects.items)
        (length import.now.objects.items)) }
{
    let mut lines = room;
    lines.clear();
    for object in import.objects.as_slice() {
        push_object(&mut lines, object, &import.names)?;
        give_piece(&mut lines, output)?;
    }
    give_all(output, lines.as_bytes())?;
    Ok(())
}

/// Writes the lines and empties them, if they are long enough.
fn give_piece<O: Outlet>(lines: &mut String, output: &mut O) -> Result<(), Fault>
    ensures { OnOk result ((given : List ℕ) × Appends (O.took output.old) (O.took output.new) given
        × (given ++ string_bytes lines.new ≡ string_bytes lines.old)) }
{
    if lines.len() < PIECE {
        return Ok(());
    }
    give_all(output, lines.as_bytes())?;
    lines.clear();
    Ok(())
}

/// Appends the line of an object.
fn push_object(
    lines: &mut String,
    object: &ListedObject,
    names: &ClassNames,
) -> Result<(), AllocError>
    ensures line { OnOk result (string_bytes lines.new ≡ string_bytes lines.old ++ object_line names.now object.now) }
    ensures row { OnOk result (HasRows (object_line names.now object.now) 1) }
{
    let address = object.address;
    write!(lines, "{address} ")?;
    object.push_id(lines)?;
    lines.push_str(" ")?;
    names.push_name(object.class, lines)?;
    let (bytes, state) = (bytes_of(object.words), state_of(object.is_live));
    writeln!(lines, " {bytes} {state}")?;
    Ok(())
}

/// How the list says whether an object is live.
fn state_of(is_live: bool) -> &'static str
    ensures { result.now ≡ state_of is_live }
{
    if is_live { "live" } else { "dead" }
}
