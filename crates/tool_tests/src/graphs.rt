//! A dump as a graph beside itself. `tests/cli/test_compare.py` has the reports of other dumps.
use crate::checks::equal;
use crate::dumps::sample;
use dump_graph::{DumpGraph, number_classes, read_graph};
use heap_dump::ImportError;
use heap_image::FromRead;
use object_pairs::{Manner, Report, compare_heaps};
use std::alloc::{AllocError, Global};
use std::test::Fail;

/// What is reported of the sample beside itself.
const REPORT: &str = "\
objects before 4 after 4 paired 4 changed 0
conflicts 0 cleared 0 filled 0 elsewhere 0
 space      paired      stayed    descents       holes      prefix       bytes     regions  start
     1           3           3           0           0           3          80           0  @100
     2           1           1           0           0           1           0           0  @1178
slid: each space keeps its order and its distances
unpaired in the prefix of space 1: 0
unpaired in the prefix of space 2: 0
";

/// The same as an object.
const OBJECT: &str =
    "{\"before\":4,\"after\":4,\"paired\":4,\"changed\":0,\"cleared\":0,\"filled\":0,\"elsewhere\":0,\"verdict\":\"slid\",\"spaces\":[{\"start\":256,\"paired\":3,\"stayed\":3,\"descents\":0,\"holes\":0,\"prefix\":3,\"prefix_end\":336},{\"start\":4472,\"paired\":1,\"stayed\":1,\"descents\":0,\"holes\":0,\"prefix\":1,\"prefix_end\":4472}]}\n";

/// The sample as a graph.
fn graph(alloc: Global) -> Result<DumpGraph, ImportError> {
    let bytes = sample(alloc)?;
    let (mut first, mut second) = (
        FromRead::new(bytes.as_slice()),
        FromRead::new(bytes.as_slice()),
    );
    read_graph(alloc, &mut first, &mut second)
}

/// The report of two graphs.
fn compared(
    alloc: Global,
    mut before: DumpGraph,
    mut after: DumpGraph,
    json: bool,
) -> Result<Report, AllocError> {
    let names = number_classes(alloc, &mut before, &mut after)?;
    let manner = Manner {
        json,
        explain: true,
    };
    compare_heaps(alloc, &before.graph, &after.graph, &names, manner)
}

#[test]
fn a_dump_beside_itself_slid(rt: HostRuntime) -> Result<(), Fail> {
    for (json, want) in [(false, REPORT), (true, OBJECT)] {
        let report = compared(rt.alloc(), graph(rt.alloc())?, graph(rt.alloc())?, json)?;
        equal(&rt, report.text.as_str(), want);
        equal(&rt, report.verdict.status(), 0);
    }
    Ok(())
}
