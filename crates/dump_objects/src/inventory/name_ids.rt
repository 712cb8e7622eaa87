//! Which text of a dump is the name of which class.
use std::alloc::{AllocError, Global};

/// A class and the text of its name, both by id.
#[derive(Clone, Copy)]
pub struct NameId {
    pub class: u64,
    pub text: u64,
}

/// Which text is the name of which class, as records outside the heap say.
///
/// It stays empty unless classes are wanted.
#[derive(Drop)]
pub struct NameIds {
    wants_classes: bool,
    /// In the order of the dump while it is read, then of texts.
    list: Vec<NameId>,
}

impl NameIds {
    /// No names yet.
    pub fn new(alloc: Global, wants_classes: bool) -> NameIds {
        NameIds {
            wants_classes,
            list: Vec::new(alloc),
        }
    }

    /// Whether classes are wanted.
    pub fn wants_classes(&self) -> bool {
        self.wants_classes
    }

    /// Adds the name of a class, if classes are wanted.
    pub fn add(&mut self, class: u64, text: u64) -> Result<(), AllocError> {
        if self.wants_classes {
            self.list.push(NameId { class, text })?;
        }
        Ok(())
    }

    /// How many there are.
    pub fn len(&self) -> usize {
        self.list.len()
    }

    /// In the order in which they are now.
    pub fn as_slice(&self) -> &[NameId] {
        self.list.as_slice()
    }

    /// Sorts the names for [`index_of_text`](NameIds::index_of_text).
    pub fn sort(&mut self) {
        self.list.sort_unstable_by_key(|name| name.text);
    }

    /// The index of a name that is this text, once they are sorted. For one text it is always the same.
    pub fn index_of_text(&self, text: u64) -> Option<usize> {
        let list = self.list.as_slice();
        list.binary_search_by_key(&text, |name| name.text).ok()
    }
}
