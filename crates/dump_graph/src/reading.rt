//! Reads a dump as a graph.
ghost use Rattle.std.specs.Prelude.{◌≡◌, OnOk, IsTrue, ◌⊎◌};
ghost use Rattle.std.specs.Io.KnownBytes.{IsAtEnd};

use crate::names::names_of;
use crate::tracing::{Trace, Tracing};
use dump_objects::Inventory;
use dump_records::ImportError;
use heap_image::Intake;
use object_pairs::Graph;
use std::alloc::{AllocError, Global};

/// A dump as a graph, with the names of its classes.
#[derive(Drop)]
pub struct DumpGraph {
    /// The classes of its objects have the numbers of the dump, by which the names are.
    pub graph: Graph,
    pub(crate) names: Vec<String>,
    /// The number after those of the classes of instances and arrays, from which on are those of class objects.
    pub(crate) kinds: u32,
}

/// Reads a dump as a graph. `first` and `second` both give it from its beginning.
///
/// Errors are those of an import. A dump with more objects than a `u32` can count is the error for memory.
pub fn read_graph<R: Intake>(
    alloc: Global,
    first: &mut R,
    second: &mut R,
) -> Result<DumpGraph, ImportError>
    ensures first_end { OnOk result (IsAtEnd (R.left first.new)) }
    ensures second_end { OnOk result (IsAtEnd (R.left second.new)) }
    ensures input { result ≡ Err ImportError.Input
        → IsTrue (R.has_failed first.new) ⊎ IsTrue (R.has_failed second.new) }
{
    let mut inventory = Inventory::of(alloc, first, second, true)?;
    inventory.index(alloc)?;
    let trace = Tracing::of(alloc, &inventory, second)?;
    Ok(graph_of(alloc, &inventory, trace)?)
}

/// The graph of what was read.
fn graph_of(alloc: Global, inventory: &Inventory, trace: Trace) -> Result<DumpGraph, AllocError> {
    let names = names_of(alloc, inventory, &trace.texts)?;
    let kinds = trace.kinds;
    let Trace {
        objects,
        references,
        roots,
        ..
    } = trace;
    Ok(DumpGraph {
        graph: Graph {
            objects,
            references,
            roots,
        },
        names,
        kinds,
    })
}
