//! The objects of a heap, and their references.
ghost use Rattle.std.specs.Prelude.{◌≡◌, slice_index};
ghost use Rattle.object_pairs.specs.Graph.{ids, is_alike, references_of};

/// An object of a heap dump.
#[derive(Clone, Copy)]
pub struct Object {
    /// Its id, which is its address in the machine, in bytes.
    pub id: u64,
    /// The index of its first reference among those of the graph.
    pub first: usize,
    /// How many bytes of primitive data it has.
    pub data_bytes: u64,
    /// A checksum of these.
    pub checksum: u64,
    /// The number of its class. Both graphs have the same numbers.
    pub class: u32,
    /// How many references it has.
    pub references: u32,
}

impl Object {
    /// Whether both are of one class and one size.
    pub(crate) fn is_alike(&self, other: &Object) -> bool
        ensures { result ≡ is_alike self.now other.now }
    {
        self.class == other.class
            && self.references == other.references
            && self.data_bytes == other.data_bytes
    }
}

/// A root, or a class, which is reached by its name.
#[derive(Clone, Copy)]
pub struct Root {
    /// What kind of root it is.
    pub kind: u8,
    /// Where it is: the thread and the frame, the number of a handle, or the number of the class.
    pub place: u64,
    /// The object to which it leads, by its index.
    pub object: u32,
}

/// A heap dump as a graph.
#[derive(Drop)]
pub struct Graph {
    /// By ascending ids.
    pub objects: Vec<Object>,
    /// The references of all objects: the index of an object, counted from 1, or 0 for null.
    pub references: Vec<u32>,
    /// By ascending kinds and places. Roots of one place are in the order of the dump.
    pub roots: Vec<Root>,
}

impl Graph {
    /// The references of an object of the graph.
    pub(crate) fn references_of(&self, object: &Object) -> &[u32]
        ensures { result.now ≡ references_of self.now.references.items object.now }
    {
        let end = object.first.saturating_add(object.references as usize);
        if end <= self.references.len() {
            &self.references[object.first..end]
        } else {
            &[]
        }
    }
}

/// The id of the object with this index, or 0 if there is none.
pub(crate) fn id_at(objects: &[Object], index: usize) -> u64
    ensures { result ≡ slice_index (ids objects.now) index }
{
    if index < objects.len() {
        objects[index].id
    } else {
        0
    }
}
