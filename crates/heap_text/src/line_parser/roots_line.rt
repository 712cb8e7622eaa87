//! Parses the line of the roots, after its name.
ghost use Rattle.std.specs.Prelude.{◌≡◌, ◌≤◌, ◌++◌, ◌∷◌, [], ℕ, List, OnOk, length, flat_map};
ghost use Rattle.std.specs.List.{AllByRecursion};
ghost use Rattle.heap_text.specs.Text.{reference_text};
ghost use Rattle.heap_text.specs.Words.{Accepts};

use super::line_error::LineError;
use super::tokens::{Tokens, parse_reference};
use crate::expected::Expected;
use std::alloc::AllocError;

/// Pushes the roots of a heap of `len` words.
pub(crate) fn parse_roots(
    roots: &mut Vec<u64>,
    len: u64,
    mut tokens: Tokens<'_>,
) -> Result<(), LineError>
    requires few { len ≤ 68719476736 }
    ensures accepts { (all : List ℕ) → AllByRecursion (λ w. w ≤ len) all → length all ≤ len → roots.old.items ≡ []
        → tokens.entry.rest.now ≡ flat_map reference_text all → Accepts result (λ _. roots.new.items ≡ all) }
{
    while let Some(token) = tokens.next_token() {
        let Some(root) = parse_reference(token, len) else {
            return Err(LineError::Expected(Expected::Reference(len)));
        };
        push_root(roots, len, root)?;
    }
    if roots.len() as u64 > len {
        return Err(LineError::Expected(Expected::FewRoots(len)));
    }
    Ok(())
}

/// Pushes a root, but keeps at most one root more than the heap has words. That one shows that there are too many, and a
/// line of any length takes no more memory.
fn push_root(roots: &mut Vec<u64>, len: u64, root: u64) -> Result<(), AllocError>
    ensures { length roots.old.items ≤ len → OnOk result (roots.new.items ≡ roots.old.items ++ (root ∷ [])) }
{
    if roots.len() as u64 <= len {
        roots.push(root)?;
    }
    Ok(())
}
