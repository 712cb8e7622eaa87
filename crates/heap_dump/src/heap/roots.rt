//! The roots of an image.
ghost use Rattle.std.specs.Prelude.{◌≡◌, ◌≤◌, All, length, IfOk};
ghost use Rattle.std.specs.List.Sorted.{IsStrictlyIncreasing};

use std::alloc::{AllocError, Global};

/// Returns the roots that lead to these addresses of a heap of `words` words, each once and ascending. Addresses
/// outside the heap are ignored.
pub(crate) fn roots_to(alloc: Global, addresses: &[u64], words: u64) -> Result<Vec<u64>, AllocError>
    ensures few { IfOk result (λ roots. length roots.items ≤ words) }
    ensures inside { IfOk result (λ roots. All (λ root. root ≤ words) roots.items) }
    ensures ascend { IfOk result (λ roots. IsStrictlyIncreasing roots.items) }
{
    let is_root = marks_of(alloc, addresses, words)?;
    let mut roots = Vec::new(alloc);
    for address in 0..words {
        if is_root[address as usize] {
            roots.push(address + 1)?;
        }
    }
    Ok(roots)
}

/// For each address of a heap of `words` words, whether it is one of these.
fn marks_of(alloc: Global, addresses: &[u64], words: u64) -> Result<Vec<bool>, AllocError>
    ensures { IfOk result (λ marks. length marks.items ≡ words) }
{
    let mut marks = vec![in alloc; false; words as usize]?;
    for address in addresses {
        if *address < words {
            marks[*address as usize] = true;
        }
    }
    Ok(marks)
}
