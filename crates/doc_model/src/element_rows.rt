// The regular objects of data elements as tuples of their fields, in both directions.
ghost use Rattle.doc_model.specs.wire.ElementRows.{manifest_mapping, cell_mapping, revision_mapping, manifest_root, revision_root};
ghost use Rattle.doc_model.specs.readers.ElementCodes.{manifest_code, cell_code, revision_code, root_code, revision_root_code};

use crate::element::{CellMap, ManifestMap, RevisionMap, RevisionRoot, Root};
use compact_values::{CellId, ExGuid, NoMemory, Octets, Serial};
use std::alloc::Global;
use wire_kinds::{Decode, Encode};

// 11, manifest mapping
impl Encode for ManifestMap {
    ghost kind = { manifest_mapping.fields };

    fn encode(&self, out: &mut Octets) -> Result<(), NoMemory> {
        (&self.target, &self.serial).encode(out)
    }

    fn size(&self) -> u64 {
        (&self.target, &self.serial).size()
    }
}

impl Decode for ManifestMap {
    ghost takes = { manifest_code.take };

    ghost exact = { manifest_code.exact };

    fn decode(alloc: Global, bytes: &[u8]) -> Result<Option<(ManifestMap, &[u8])>, NoMemory> {
        let Some(((target, serial), rest)) = <(ExGuid, Serial)>::decode(alloc, bytes)? else {
            return Ok(None);
        };
        Ok(Some((ManifestMap { target, serial }, rest)))
    }
}

// 0E, cell mapping
impl Encode for CellMap {
    ghost kind = { cell_mapping.fields };

    fn encode(&self, out: &mut Octets) -> Result<(), NoMemory> {
        (&self.cell, (&self.target, &self.serial)).encode(out)
    }

    fn size(&self) -> u64 {
        (&self.cell, (&self.target, &self.serial)).size()
    }
}

impl Decode for CellMap {
    ghost takes = { cell_code.take };

    ghost exact = { cell_code.exact };

    fn decode(alloc: Global, bytes: &[u8]) -> Result<Option<(CellMap, &[u8])>, NoMemory> {
        let Some(((cell, (target, serial)), rest)) = <(CellId, (ExGuid, Serial))>::decode(
            alloc, bytes,
        )?
        else {
            return Ok(None);
        };
        Ok(Some((
            CellMap {
                cell,
                target,
                serial,
            },
            rest,
        )))
    }
}

// 0D, revision mapping
impl Encode for RevisionMap {
    ghost kind = { revision_mapping.fields };

    fn encode(&self, out: &mut Octets) -> Result<(), NoMemory> {
        (&self.revision, (&self.target, &self.serial)).encode(out)
    }

    fn size(&self) -> u64 {
        (&self.revision, (&self.target, &self.serial)).size()
    }
}

impl Decode for RevisionMap {
    ghost takes = { revision_code.take };

    ghost exact = { revision_code.exact };

    fn decode(alloc: Global, bytes: &[u8]) -> Result<Option<(RevisionMap, &[u8])>, NoMemory> {
        let Some(((revision, (target, serial)), rest)) = <(ExGuid, (ExGuid, Serial))>::decode(
            alloc, bytes,
        )?
        else {
            return Ok(None);
        };
        Ok(Some((
            RevisionMap {
                revision,
                target,
                serial,
            },
            rest,
        )))
    }
}

// 07, manifest root
impl Encode for Root {
    ghost kind = { manifest_root.fields };

    fn encode(&self, out: &mut Octets) -> Result<(), NoMemory> {
        (&self.root, &self.cell).encode(out)
    }

    fn size(&self) -> u64 {
        (&self.root, &self.cell).size()
    }
}

impl Decode for Root {
    ghost takes = { root_code.take };

    ghost exact = { root_code.exact };

    fn decode(alloc: Global, bytes: &[u8]) -> Result<Option<(Root, &[u8])>, NoMemory> {
        let Some(((root, cell), rest)) = <(ExGuid, CellId)>::decode(alloc, bytes)? else {
            return Ok(None);
        };
        Ok(Some((Root { root, cell }, rest)))
    }
}

// 0A, revision root
impl Encode for RevisionRoot {
    ghost kind = { revision_root.fields };

    fn encode(&self, out: &mut Octets) -> Result<(), NoMemory> {
        (&self.root, &self.object).encode(out)
    }

    fn size(&self) -> u64 {
        (&self.root, &self.object).size()
    }
}

impl Decode for RevisionRoot {
    ghost takes = { revision_root_code.take };

    ghost exact = { revision_root_code.exact };

    fn decode(alloc: Global, bytes: &[u8]) -> Result<Option<(RevisionRoot, &[u8])>, NoMemory> {
        let Some(((root, object), rest)) = <(ExGuid, ExGuid)>::decode(alloc, bytes)? else {
            return Ok(None);
        };
        Ok(Some((RevisionRoot { root, object }, rest)))
    }
}
