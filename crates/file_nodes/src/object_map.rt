ghost use Rattle.std.specs.Prelude.{◌≡◌, [], ◌∷◌, ◌++◌, OnOk, OnErr};

use compact_values::{ExGuid, Ids, NoMemory};
use std::alloc::Global;
use std::marker::Model;

/// An object as a file is made of it, borrowed: its id, the objects that it refers to in order, and its own bytes.
#[derive(Debug, Drop)]
pub(crate) struct StoredObject<'a> {
    id: ExGuid,
    references: &'a Ids,
    bytes: &'a [u8],
}

impl<'a> Model for StoredObject<'a> {
    ghost use Rattle.file_nodes.specs.StoredObjects as plain;

    ghost Value = { plain.StoredObject };

    ghost view = { λ o. record { id = o.id; references = o.references.now; bytes = o.bytes.now } };
}

impl<'a> StoredObject<'a> {
    pub(crate) fn id(&self) -> ExGuid
        ensures { result ≡ self.now.id }
    {
        self.id
    }

    pub(crate) fn references(&self) -> &[ExGuid]
        ensures { result.now ≡ self.now.references }
    {
        self.references.as_slice()
    }

    pub(crate) fn bytes(&self) -> &[u8]
        ensures { result.now ≡ self.now.bytes }
    {
        self.bytes
    }
}

/// The objects of a file, which contracts see as a list. The first object with an id counts.
///
/// Nothing is copied: the map borrows the references and the bytes of each object from where they stand.
#[derive(Debug, Drop)]
pub struct ObjectMap<'a> {
    objects: Vec<StoredObject<'a>>,
}

impl<'a> Model for ObjectMap<'a> {
    ghost use Rattle.std.specs.Prelude.{List};
    ghost use Rattle.file_nodes.specs.StoredObjects as plain;

    ghost Value = { List plain.StoredObject };

    ghost view = { λ m. m.objects.items };
}

impl<'a> ObjectMap<'a> {
    /// No objects.
    pub fn new(alloc: Global) -> ObjectMap<'a>
        ensures { result ≡ [] }
    {
        ObjectMap {
            objects: Vec::new(alloc),
        }
    }

    /// Adds an object at the end. Without memory nothing is added.
    pub fn add(&mut self, id: ExGuid, references: &'a Ids, bytes: &'a [u8]) -> Result<(), NoMemory>
        ensures ok { OnOk result (self.new ≡ self.old ++ record { id = id; references = references.now; bytes = bytes.now } ∷ []) }
        ensures err { OnErr result (self.new ≡ self.old) }
    {
        let object = StoredObject {
            id,
            references,
            bytes,
        };
        match self.objects.push(object) {
            Ok(()) => Ok(()),
            Err(_) => Err(NoMemory),
        }
    }

    pub(crate) fn as_slice(&self) -> &[StoredObject<'a>]
        ensures { result.now ≡ self.now }
    {
        self.objects.as_slice()
    }
}
