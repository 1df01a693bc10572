// Exact comparison of plain data.
use crate::element::{
    Body, CellMap, Content, Element, ManifestMap, Object, RevisionMap, RevisionRoot, Root,
};
use compact_values::Same;

impl Same for ManifestMap {
    fn same(&self, other: &ManifestMap) -> bool {
        *self == *other
    }
}

impl Same for CellMap {
    fn same(&self, other: &CellMap) -> bool {
        self.cell.same(&other.cell)
            && self.target.same(&other.target)
            && self.serial.same(&other.serial)
    }
}

impl Same for RevisionMap {
    fn same(&self, other: &RevisionMap) -> bool {
        *self == *other
    }
}

impl Same for Root {
    fn same(&self, other: &Root) -> bool {
        *self == *other
    }
}

impl Same for RevisionRoot {
    fn same(&self, other: &RevisionRoot) -> bool {
        *self == *other
    }
}

impl Same for Content {
    fn same(&self, other: &Content) -> bool {
        match self {
            Content::Inline { bytes } => match other {
                Content::Inline { bytes: theirs } => bytes.same(theirs),
                _ => false,
            },
            Content::Apart { blob } => match other {
                Content::Apart { blob: theirs } => *blob == *theirs,
                _ => false,
            },
        }
    }
}

impl Same for Object {
    fn same(&self, other: &Object) -> bool {
        self.id == other.id
            && self.partition == other.partition
            && self.size == other.size
            && self.references.same(&other.references)
            && self.cells.same(&other.cells)
            && self.content.same(&other.content)
    }
}

impl Same for Body {
    fn same(&self, other: &Body) -> bool {
        match self {
            Body::Index {
                manifests,
                cells,
                revisions,
            } => match other {
                Body::Index {
                    manifests: m,
                    cells: c,
                    revisions: r,
                } => manifests.same(m) && cells.same(c) && revisions.same(r),
                _ => false,
            },
            Body::Storage { schema, roots } => match other {
                Body::Storage {
                    schema: s,
                    roots: r,
                } => *schema == *s && roots.same(r),
                _ => false,
            },
            Body::Cell { current } => match other {
                Body::Cell { current: c } => *current == *c,
                _ => false,
            },
            Body::Revision {
                id,
                base,
                roots,
                groups,
            } => match other {
                Body::Revision {
                    id: i,
                    base: b,
                    roots: r,
                    groups: g,
                } => *id == *i && *base == *b && roots.same(r) && groups.same(g),
                _ => false,
            },
            Body::Group { objects } => match other {
                Body::Group { objects: o } => objects.same(o),
                _ => false,
            },
            Body::Blob { bytes } => match other {
                Body::Blob { bytes: b } => bytes.same(b),
                _ => false,
            },
        }
    }
}

impl Same for Element {
    fn same(&self, other: &Element) -> bool {
        self.id == other.id && self.body.same(&other.body)
    }
}
