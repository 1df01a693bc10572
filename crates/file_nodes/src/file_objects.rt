//! The objects of a file: a root node, the leaves with the file's bytes, and intermediate nodes between them (MS-FSSHTTPD 2.2).

ghost use Rattle.std.specs.Prelude.{◌≡◌, ◌+◌, ◌++◌, ◌<◌, ◌≤◌, ◌^◌, [], length, map, IfOk, OnOk};
ghost use Rattle.std.specs.List.{range_with_len};
ghost use Rattle.std.specs.Int.{div_ceil};
ghost use Rattle.sha2.specs.Sha256.{sha256};
ghost use Rattle.compact_values.specs.Compact.{little_endian};
ghost use Rattle.compact_values.specs.Items.{item};
ghost use Rattle.stream_objects.specs.Written.{simple_object};
ghost use Rattle.doc_model.specs.rules.Nodes.{node_bytes};
ghost use Rattle.file_nodes.specs.Pieces.{pieces};
ghost use Rattle.file_nodes.specs.Chunks.{id_of};
ghost use Rattle.file_nodes.specs.Chunking.{inline, node, numbered, objects_of, ids_of, leaves, levels, file_objects};
ghost use Rattle.stream_objects.specs.declared.object_types.TheConstants.{DATA_SIZE, INTERMEDIATE_NODE, SIGNATURE};

use compact_values::{ExGuid, Guid, Ids, NoMemory, Octets, Seq, append_low_bytes, write_item};
use doc_model::{Content, Object, Objects};
use sha2::{Digest, Sha256};
use std::alloc::Global;
use stream_objects::{begin, finish, object_types};

/// How many bytes a leaf has, unless it is the last.
const LEAF_BYTES: usize = 65_536;

/// How many references a node has at most.
const REFERENCES: usize = 64;

/// How many bytes are below an intermediate node over leaves, unless it is the last.
const NODE_BYTES: usize = 4_194_304;

/// Adds a signature: the hash of these bytes.
fn append_signature(alloc: Global, out: &mut Octets, file: &[u8]) -> Result<(), NoMemory>
    ensures { OnOk result (out.new ≡ out.old ++ simple_object SIGNATURE (item (sha256 file.now))) }
{
    let hash = Sha256::digest(file);
    let mut fields = Seq::new(alloc);
    write_item(&mut fields, &hash)?;
    begin(out, object_types::SIGNATURE, false, fields.as_slice())
}

/// Adds a data size.
fn append_size(alloc: Global, out: &mut Octets, size: u64) -> Result<(), NoMemory>
    ensures { OnOk result (out.new ≡ out.old ++ simple_object DATA_SIZE (little_endian 8 size)) }
{
    let mut fields = Seq::new(alloc);
    append_low_bytes(&mut fields, size, 8)?;
    begin(out, object_types::DATA_SIZE, false, fields.as_slice())
}

/// The bytes of a node over these bytes of the file.
#[tactic(auto, unfolding(doc_model::specs::rules::Nodes::node_bytes))]
fn node_bytes(alloc: Global, kind: u16, file: &[u8]) -> Result<Octets, NoMemory>
    requires { kind ≤ 63 }
    ensures { IfOk result (λ bytes. bytes ≡ node_bytes kind (sha256 file.now) (length file.now)) }
{
    let mut bytes = Seq::new(alloc);
    begin(&mut bytes, kind, true, &[])?;
    append_signature(alloc, &mut bytes, file)?;
    append_size(alloc, &mut bytes, file.len() as u64)?;
    finish(&mut bytes, kind)?;
    Ok(bytes)
}

/// An object that has its bytes with it.
fn inline(alloc: Global, guid: Guid, value: u32, references: Ids, bytes: Octets) -> Object
    ensures { result ≡ inline guid value references bytes }
{
    Object {
        id: ExGuid::Id { guid, value },
        partition: 1,
        size: bytes.len() as u64,
        references,
        cells: Seq::new(alloc),
        content: Content::Inline { bytes },
    }
}

/// A leaf with these bytes of the file.
fn leaf(alloc: Global, guid: Guid, value: u32, file: &[u8]) -> Result<Object, NoMemory>
    ensures { IfOk result (λ object. object ≡ inline guid value [] file.now) }
{
    let mut bytes = Seq::new(alloc);
    bytes.extend_from_slice(file)?;
    Ok(inline(alloc, guid, value, Seq::new(alloc), bytes))
}

/// A node over these bytes of the file, with these references.
fn node(
    alloc: Global,
    kind: u16,
    guid: Guid,
    value: u32,
    references: Ids,
    file: &[u8],
) -> Result<Object, NoMemory>
    requires { kind ≤ 63 }
    ensures { IfOk result (λ object. object ≡ inline guid value references (node_bytes kind (sha256 file.now) (length file.now))) }
{
    let bytes = node_bytes(alloc, kind, file)?;
    Ok(inline(alloc, guid, value, references, bytes))
}

/// So many ids with consecutive values.
fn consecutive_ids(alloc: Global, guid: Guid, first: u32, count: u32) -> Result<Ids, NoMemory>
    requires { first + count < 2 ^ 32 }
    ensures { IfOk result (λ ids. ids ≡ map (id_of guid) (range_with_len first count)) }
{
    let mut ids = Seq::new(alloc);
    for value in first..first + count {
        ids.push(ExGuid::Id { guid, value })?;
    }
    Ok(ids)
}

/// How many leaves these bytes of the file have.
fn leaf_count(file: &[u8]) -> u32
    requires { length file.now ≤ 16777216 }
    ensures count { result ≡ div_ceil (length file.now) 65536 }
    ensures few { result ≤ 256 }
{
    file.len().div_ceil(LEAF_BYTES) as u32
}

/// Adds the leaves of a file, with values from `first` on.
fn push_leaves(
    alloc: Global,
    objects: &mut Objects,
    file: &[u8],
    guid: Guid,
    first: u32,
) -> Result<(), NoMemory>
    requires { first + length file.now < 2 ^ 32 }
    ensures { OnOk result (objects.new ≡ objects.old ++ objects_of (leaves file.now guid first)) }
{
    let mut value = first;
    for bytes in file.chunks(LEAF_BYTES) {
        objects.push(leaf(alloc, guid, value, bytes)?)?;
        value += 1;
    }
    Ok(())
}

/// Adds the intermediate nodes over the leaves of a file, whose values begin at `first_leaf`, with values from `first` on.
fn push_nodes(
    alloc: Global,
    objects: &mut Objects,
    file: &[u8],
    guid: Guid,
    first_leaf: u32,
    first: u32,
) -> Result<(), NoMemory>
    requires short { length file.now ≤ 16777216 }
    requires leaf_room { first_leaf + length file.now < 2 ^ 32 }
    requires room { first + length file.now < 2 ^ 32 }
    ensures { OnOk result (objects.new ≡ objects.old ++ objects_of (numbered (node INTERMEDIATE_NODE guid) first (pieces 64 (leaves file.now guid first_leaf)))) }
{
    let mut value = first;
    let mut leaf = first_leaf;
    for bytes in file.chunks(NODE_BYTES) {
        let count = leaf_count(bytes);
        let references = consecutive_ids(alloc, guid, leaf, count)?;
        objects.push(node(
            alloc,
            object_types::INTERMEDIATE_NODE,
            guid,
            value,
            references,
            bytes,
        )?)?;
        value += 1;
        leaf += count;
    }
    Ok(())
}

/// The ids of the top level over the leaves of a file, whose values begin at `first`.
fn top_ids(alloc: Global, file: &[u8], guid: Guid, first: u32) -> Result<Ids, NoMemory>
    requires short { length file.now ≤ 16777216 }
    requires room { first + length file.now < 2 ^ 32 }
    ensures { IfOk result (λ ids. ids ≡ ids_of (levels file.now guid first).top) }
{
    let leaves = leaf_count(file);
    if leaves <= REFERENCES as u32 {
        consecutive_ids(alloc, guid, first, leaves)
    } else {
        consecutive_ids(
            alloc,
            guid,
            first + leaves,
            file.len().div_ceil(NODE_BYTES) as u32,
        )
    }
}

/// Adds the leaves of a file and, where they are too many for one node, the intermediate nodes, with values from `first` on.
fn push_levels(
    alloc: Global,
    objects: &mut Objects,
    file: &[u8],
    guid: Guid,
    first: u32,
) -> Result<(), NoMemory>
    requires short { length file.now ≤ 16777216 }
    requires room { first + length file.now + 256 < 2 ^ 32 }
    ensures { OnOk result (objects.new ≡ objects.old ++ objects_of (levels file.now guid first).all) }
{
    push_leaves(alloc, objects, file, guid, first)?;
    let leaves = leaf_count(file);
    if leaves <= REFERENCES as u32 {
        Ok(())
    } else {
        push_nodes(alloc, objects, file, guid, first, first + leaves)
    }
}

/// The objects of a file, with values from `first` on: the root node, the leaves in order, then the intermediate nodes.
pub fn file_objects(alloc: Global, file: &[u8], guid: Guid, first: u32) -> Result<Objects, NoMemory>
    requires short { length file.now ≤ 16777216 }
    requires room { first ≤ 4000000006 }
    ensures objects { IfOk result (λ objects. objects ≡ file_objects file.now guid first) }
    ensures few { IfOk result (λ objects. length objects ≤ 261) }
{
    let references = top_ids(alloc, file, guid, first + 1)?;
    let mut objects = Seq::new(alloc);
    objects.push(node(
        alloc,
        object_types::ROOT_NODE,
        guid,
        first,
        references,
        file,
    )?)?;
    push_levels(alloc, &mut objects, file, guid, first + 1)?;
    Ok(objects)
}
