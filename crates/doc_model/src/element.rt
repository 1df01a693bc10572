use compact_values::{CellId, CellIds, ExGuid, Guid, Ids, Octets, Seq, Serial};

pub type ManifestMaps = Seq<ManifestMap>;

pub type CellMaps = Seq<CellMap>;

pub type RevisionMaps = Seq<RevisionMap>;

pub type Roots = Seq<Root>;

pub type RevisionRoots = Seq<RevisionRoot>;

pub type Objects = Seq<Object>;

pub type Elements = Seq<Element>;

pub type Numbered = Seq<NumberedElement>;

/// Names in the order of naming.
pub type Namings = Seq<Name>;

/// A data element (MS-FSSHTTPB 2.2.1.12): its id and what it says.
#[derive(Debug, Drop, PartialEq, Eq)]
pub struct Element {
    pub id: ExGuid,
    pub body: Body,
}

/// What a data element says, by its kind (MS-FSSHTTPB 2.2.1.12.1).
#[derive(Debug, Drop, PartialEq, Eq)]
pub enum Body {
    /// Storage index: where the storage manifest, the cell manifests and the revision manifests are.
    Index {
        manifests: ManifestMaps,
        cells: CellMaps,
        revisions: RevisionMaps,
    },
    /// Storage manifest: the schema of the storage, and its root cells.
    Storage {
        schema: Guid,
        roots: Roots,
    },
    /// Cell manifest: the current revision of a cell.
    Cell {
        current: ExGuid,
    },
    /// Revision manifest: a revision, the one that it stands on, its root objects and its object groups.
    Revision {
        id: ExGuid,
        base: ExGuid,
        roots: RevisionRoots,
        groups: Ids,
    },
    /// Object group: objects with their content.
    Group {
        objects: Objects,
    },
    /// Object data blob: the content of an object that stands apart.
    Blob {
        bytes: Octets,
    },
}

/// Which element the storage manifest is.
#[derive(Clone, Copy, Debug, PartialEq, Eq)]
pub struct ManifestMap {
    pub target: ExGuid,
    pub serial: Serial,
}

/// Which element the manifest of a cell is.
#[derive(Clone, Copy, Debug, PartialEq, Eq)]
pub struct CellMap {
    pub cell: CellId,
    pub target: ExGuid,
    pub serial: Serial,
}

/// Which element the manifest of a revision is.
#[derive(Clone, Copy, Debug, PartialEq, Eq)]
pub struct RevisionMap {
    pub revision: ExGuid,
    pub target: ExGuid,
    pub serial: Serial,
}

/// A root of the storage, and its cell.
#[derive(Clone, Copy, Debug, PartialEq, Eq)]
pub struct Root {
    pub root: ExGuid,
    pub cell: CellId,
}

/// A root of a revision, and its object.
#[derive(Clone, Copy, Debug, PartialEq, Eq)]
pub struct RevisionRoot {
    pub root: ExGuid,
    pub object: ExGuid,
}

/// An object of a group: its id, the partition that it lies in, its size as the sender gave it, the objects and cells that
/// it refers to, and its content.
#[derive(Debug, Drop, PartialEq, Eq)]
pub struct Object {
    pub id: ExGuid,
    pub partition: u64,
    pub size: u64,
    pub references: Ids,
    pub cells: CellIds,
    pub content: Content,
}

/// Where an object's bytes are: with the object, or in a blob element.
#[derive(Debug, Drop, PartialEq, Eq)]
pub enum Content {
    Inline { bytes: Octets },
    Apart { blob: ExGuid },
}

/// An element with the value of its serial number, which tells the order in which a document took elements.
#[derive(Debug, Drop, PartialEq, Eq)]
pub struct NumberedElement {
    pub serial: u64,
    pub element: Element,
}

/// An element that is named, and whether it is there and of the kind that its place needs.
#[derive(Clone, Copy, Debug, PartialEq, Eq)]
pub struct Name {
    pub id: ExGuid,
    pub found: bool,
}
