//! Which objects roots reach, found by going over all words again and again.
use crate::coded_marks::hosts::Host;
use std::alloc::{AllocError, Global};

/// For each address of a heap, whether the roots reach it.
pub fn reached(
    alloc: Global,
    host: Host,
    words: &[u64],
    roots: &[u64],
) -> Result<Vec<bool>, AllocError> {
    let mut reached = vec![in alloc; false; words.len()]?;
    for root in roots {
        mark(host, words, *root, &mut reached);
    }
    for _ in 0..words.len() {
        for a in 0..words.len() {
            if reached.get(a) == Some(&true) {
                mark_fields(host, words, a, &mut reached);
            }
        }
    }
    Ok(reached)
}

/// Marks the objects to which that at address `a` refers.
fn mark_fields(host: Host, words: &[u64], a: usize, reached: &mut Vec<bool>) {
    let Some(header) = words.get(a) else {
        return;
    };
    if !host.has_references(*header) {
        return;
    }
    for field in 1..host.size(*header) {
        let at = (a as u64).saturating_add(field);
        if at < words.len() as u64 {
            mark(host, words, words[at as usize], reached);
        }
    }
}

/// Marks the object to which a word leads.
fn mark(host: Host, words: &[u64], word: u64, reached: &mut Vec<bool>) {
    if let Some(a) = host.target(word, words.len() as u64)
        && let Some(flag) = reached.get_mut(a as usize)
    {
        *flag = true;
    }
}
