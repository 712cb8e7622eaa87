//! The classes of a dump, and the fields of their instances.
ghost use Rattle.std.specs.Prelude.{◌≢◌};

use super::objects::Objects;
use dump_records::{Contents, FieldType, IdSize, ImportError, Problem};
use std::alloc::{AllocError, Global};

/// What is known of the fields of a class and its superclasses.
#[derive(Clone, Copy)]
enum Ancestry {
    /// Not determined yet.
    Unknown,
    /// A superclass is missing from the dump, or the chain of superclasses is a cycle; also while it is being
    /// determined.
    Broken,
    /// The contents of all these fields, and the number of the next superclass that has fields, or 0.
    Known { next: u32, all: Contents },
}

/// A class, and the fields that it declares.
#[derive(Clone, Copy)]
pub struct Class {
    pub id: u64,
    /// The id of the superclass.
    parent: u64,
    /// How many instance fields the classes before it declare.
    fields_before: usize,
    /// The references of the class object, and the data bytes of its static fields.
    references: u32,
    data_bytes: u32,
    ancestry: Ancestry,
}

/// The classes of a dump, numbered from 1 in the order of the dump. Number 0 stands for a class that is missing from
/// the dump.
pub struct Classes {
    list: Vec<Class>,
    /// The instance fields that the classes declare, class by class, in the order of the dump.
    fields: Vec<FieldType>,
    /// The size of ids in the dump.
    ids: IdSize,
    alloc: Global,
}

// Where a value is let go this is one call, and a derived one takes it apart there, which the prover follows each time.
impl Drop for Classes {
    fn drop(self) {
        let Classes {
            list: _,
            fields: _,
            ids: _,
            alloc: _,
        } = self;
    }
}

impl Classes {
    /// No classes, in a dump with ids of this size.
    pub fn new(alloc: Global, ids: IdSize) -> Classes {
        Classes {
            list: Vec::new(alloc),
            fields: Vec::new(alloc),
            ids,
            alloc,
        }
    }

    /// Adds a class, and returns its number. `own` counts its references and static fields.
    pub fn add(&mut self, id: u64, parent: u64, own: Contents) -> Result<u32, ImportError>
        ensures { result ≢ Err ImportError.Input }
    {
        let class = Class {
            id,
            parent,
            fields_before: self.fields.len(),
            references: u32::try_from(own.references).unwrap_or(u32::MAX),
            data_bytes: u32::try_from(own.data_bytes).unwrap_or(u32::MAX),
            ancestry: Ancestry::Unknown,
        };
        self.list.push(class)?;
        match u32::try_from(self.list.len()) {
            Ok(number) => Ok(number),
            Err(_) => Err(ImportError::Memory),
        }
    }

    /// Adds an instance field of the last class.
    pub fn add_field(&mut self, field: FieldType) -> Result<(), AllocError> {
        self.fields.push(field)?;
        Ok(())
    }

    /// How many there are.
    pub fn len(&self) -> usize {
        self.list.len()
    }

    /// The classes in the order of the dump.
    pub fn as_slice(&self) -> &[Class] {
        self.list.as_slice()
    }

    fn get(&self, number: u32) -> Option<&Class> {
        self.list.get((number as usize).checked_sub(1)?)
    }

    /// Whether the class with this number has this id.
    pub fn has_id(&self, number: u32, id: u64) -> bool {
        match self.get(number) {
            Some(class) => class.id == id,
            None => false,
        }
    }

    /// The instance fields that the class with this number declares.
    pub fn fields(&self, number: u32) -> &[FieldType] {
        let Some(class) = self.get(number) else {
            return &[];
        };
        let end = match self.get(number.saturating_add(1)) {
            Some(next) => next.fields_before,
            None => self.fields.len(),
        };
        self.fields.get(class.fields_before..end).unwrap_or(&[])
    }

    /// The number of the next superclass that has fields, or 0.
    pub fn next(&self, number: u32) -> u32 {
        match self.ancestry(number) {
            Ancestry::Known { next, .. } => next,
            _ => 0,
        }
    }

    fn ancestry(&self, number: u32) -> Ancestry {
        match self.get(number) {
            Some(class) => class.ancestry,
            None => Ancestry::Broken,
        }
    }

    /// The references and static fields of the class with this number, if this is its id.
    pub fn own_contents(&self, number: u32, id: u64) -> Option<Contents> {
        let class = self.get(number)?;
        if class.id != id {
            return None;
        }
        Some(Contents {
            references: u64::from(class.references),
            data_bytes: u64::from(class.data_bytes),
        })
    }

    /// The contents of an instance of the class with this number whose fields have `bytes` bytes in the dump. It is a
    /// problem if the dump lacks the class or one of its superclasses, or if their fields have another number of bytes.
    pub fn instance_contents(&self, number: u32, bytes: u32) -> Result<Contents, Problem> {
        match self.ancestry(number) {
            Ancestry::Known { all, .. } if all.bytes(self.ids) == u64::from(bytes) => Ok(all),
            Ancestry::Known { .. } => Err(Problem::InstanceSize(bytes)),
            _ => Err(Problem::NoClass),
        }
    }

    /// The number of words in an image of such an instance. One that does not fit its class counts as one word; the
    /// second reading rejects it.
    pub fn instance_words(&self, number: u32, bytes: u32) -> u64 {
        match self.instance_contents(number, bytes) {
            Ok(contents) => contents.words(),
            Err(_) => 1,
        }
    }

    /// Determines the contents of the instances of each class.
    pub fn resolve(&mut self, objects: &Objects) -> Result<(), AllocError> {
        let mut path = Vec::new(self.alloc);
        for index in 0..self.list.len() {
            // `add` gives no class a higher number than a `u32` has.
            let number = u32::try_from(index.saturating_add(1)).unwrap_or(u32::MAX);
            self.climb(objects, number, &mut path)?;
            while let Some(below) = path.pop() {
                let ancestry = self.find_ancestry(objects, below);
                self.set_ancestry(below, ancestry);
            }
        }
        Ok(())
    }

    /// Pushes a class and its superclasses onto the path, up to one that is resolved. Each counts as broken until it is
    /// resolved, so a cycle ends there.
    fn climb(
        &mut self,
        objects: &Objects,
        number: u32,
        path: &mut Vec<u32>,
    ) -> Result<(), AllocError> {
        let mut number = number;
        for _ in 0..=self.list.len() {
            let Some(
                Class {
                    parent,
                    ancestry: Ancestry::Unknown,
                    ..
                },
            ) = self.get(number)
            else {
                return Ok(());
            };
            let parent = *parent;
            path.push(number)?;
            self.set_ancestry(number, Ancestry::Broken);
            number = objects.class_number(self, parent);
        }
        Ok(())
    }

    fn set_ancestry(&mut self, number: u32, ancestry: Ancestry) {
        let index = (number as usize).saturating_sub(1);
        if let Some(class) = self.list.get_mut(index) {
            class.ancestry = ancestry;
        }
    }

    /// Determines the fields of a class and its superclasses from those of its parent. A class whose parent isn't
    /// resolved is on a cycle.
    fn find_ancestry(&self, objects: &Objects, number: u32) -> Ancestry {
        let Some(class) = self.get(number) else {
            return Ancestry::Broken;
        };
        let own = self.field_contents(number);
        if class.parent == 0 {
            return Ancestry::Known { next: 0, all: own };
        }
        let parent = objects.class_number(self, class.parent);
        match self.ancestry(parent) {
            Ancestry::Known { next, all } => Ancestry::Known {
                next: if self.fields(parent).is_empty() {
                    next
                } else {
                    parent
                },
                all: own.plus(all),
            },
            _ => Ancestry::Broken,
        }
    }

    /// The contents of the instance fields that a class declares.
    fn field_contents(&self, number: u32) -> Contents {
        let mut contents = Contents::EMPTY;
        for field in self.fields(number) {
            contents = contents.with(*field);
        }
        contents
    }
}
