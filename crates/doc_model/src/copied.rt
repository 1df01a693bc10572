// Copies of plain data.
use crate::doc::{Commit, Doc, Part};
use crate::editor::{Editor, Entry};
use crate::element::{
    Body, CellMap, Content, Element, ManifestMap, NumberedElement, Object, RevisionMap,
    RevisionRoot, Root,
};
use crate::knowledge::{Knowledge, Range};
use crate::lock::{LockRecord, Member};
use compact_values::{Copied, NoMemory};
use std::alloc::Global;

impl Copied for ManifestMap {
    fn copied(&self, _alloc: Global) -> Result<ManifestMap, NoMemory> {
        Ok(*self)
    }
}

impl Copied for CellMap {
    fn copied(&self, _alloc: Global) -> Result<CellMap, NoMemory> {
        Ok(*self)
    }
}

impl Copied for RevisionMap {
    fn copied(&self, _alloc: Global) -> Result<RevisionMap, NoMemory> {
        Ok(*self)
    }
}

impl Copied for Root {
    fn copied(&self, _alloc: Global) -> Result<Root, NoMemory> {
        Ok(*self)
    }
}

impl Copied for RevisionRoot {
    fn copied(&self, _alloc: Global) -> Result<RevisionRoot, NoMemory> {
        Ok(*self)
    }
}

impl Copied for Member {
    fn copied(&self, _alloc: Global) -> Result<Member, NoMemory> {
        Ok(*self)
    }
}

impl Copied for Range {
    fn copied(&self, _alloc: Global) -> Result<Range, NoMemory> {
        Ok(*self)
    }
}

impl Copied for Object {
    fn copied(&self, alloc: Global) -> Result<Object, NoMemory> {
        Ok(Object {
            id: self.id,
            partition: self.partition,
            size: self.size,
            references: self.references.copied(alloc)?,
            cells: self.cells.copied(alloc)?,
            content: self.content.copied(alloc)?,
        })
    }
}

impl Copied for Element {
    fn copied(&self, alloc: Global) -> Result<Element, NoMemory> {
        Ok(Element {
            id: self.id,
            body: self.body.copied(alloc)?,
        })
    }
}

impl Copied for Commit {
    fn copied(&self, alloc: Global) -> Result<Commit, NoMemory> {
        Ok(Commit {
            index: self.index,
            moment: self.moment,
            user: self.user.copied(alloc)?,
        })
    }
}

impl Copied for Entry {
    fn copied(&self, alloc: Global) -> Result<Entry, NoMemory> {
        Ok(Entry {
            key: self.key.copied(alloc)?,
            value: self.value.copied(alloc)?,
        })
    }
}

impl Copied for Editor {
    fn copied(&self, alloc: Global) -> Result<Editor, NoMemory> {
        Ok(Editor {
            client: self.client,
            user: self.user.copied(alloc)?,
            until: self.until,
            entries: self.entries.copied(alloc)?,
        })
    }
}

impl Copied for Part {
    fn copied(&self, alloc: Global) -> Result<Part, NoMemory> {
        Ok(Part {
            index: self.index,
            elements: self.elements.copied(alloc)?,
            moment: self.moment,
        })
    }
}

impl Copied for Doc {
    fn copied(&self, alloc: Global) -> Result<Doc, NoMemory> {
        Ok(Doc {
            guid: self.guid,
            added: self.added.copied(alloc)?,
            commits: self.commits.copied(alloc)?,
            lock: self.lock.copied(alloc)?,
            editors: self.editors.copied(alloc)?,
            parts: self.parts.copied(alloc)?,
            drawn: self.drawn,
        })
    }
}

impl Copied for Body {
    fn copied(&self, alloc: Global) -> Result<Body, NoMemory> {
        match self {
            Body::Index {
                manifests,
                cells,
                revisions,
            } => Ok(Body::Index {
                manifests: manifests.copied(alloc)?,
                cells: cells.copied(alloc)?,
                revisions: revisions.copied(alloc)?,
            }),
            Body::Storage { schema, roots } => Ok(Body::Storage {
                schema: *schema,
                roots: roots.copied(alloc)?,
            }),
            Body::Cell { current } => Ok(Body::Cell { current: *current }),
            Body::Revision {
                id,
                base,
                roots,
                groups,
            } => Ok(Body::Revision {
                id: *id,
                base: *base,
                roots: roots.copied(alloc)?,
                groups: groups.copied(alloc)?,
            }),
            Body::Group { objects } => Ok(Body::Group {
                objects: objects.copied(alloc)?,
            }),
            Body::Blob { bytes } => Ok(Body::Blob {
                bytes: bytes.copied(alloc)?,
            }),
        }
    }
}

impl Copied for Content {
    fn copied(&self, alloc: Global) -> Result<Content, NoMemory> {
        match self {
            Content::Inline { bytes } => Ok(Content::Inline {
                bytes: bytes.copied(alloc)?,
            }),
            Content::Apart { blob } => Ok(Content::Apart { blob: *blob }),
        }
    }
}

impl Copied for LockRecord {
    fn copied(&self, alloc: Global) -> Result<LockRecord, NoMemory> {
        match self {
            LockRecord::Free => Ok(LockRecord::Free),
            LockRecord::Exclusive { id, until } => Ok(LockRecord::Exclusive {
                id: *id,
                until: *until,
            }),
            LockRecord::Shared { schema, members } => Ok(LockRecord::Shared {
                schema: *schema,
                members: members.copied(alloc)?,
            }),
        }
    }
}

impl Copied for NumberedElement {
    fn copied(&self, alloc: Global) -> Result<NumberedElement, NoMemory> {
        Ok(NumberedElement {
            serial: self.serial,
            element: self.element.copied(alloc)?,
        })
    }
}

impl Copied for Knowledge {
    fn copied(&self, alloc: Global) -> Result<Knowledge, NoMemory> {
        Ok(Knowledge {
            ranges: self.ranges.copied(alloc)?,
        })
    }
}
