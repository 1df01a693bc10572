// Writing the objects of a group and of a blob (MS-FSSHTTPB 2.2.1.12.6 and 2.2.1.12.8). Without memory only a part of them is
// written.
ghost use Rattle.std.specs.Prelude.{◌≡◌, ◌++◌, length, take, OnOk, OnErr};
ghost use Rattle.std.specs.List.{flat_map};
ghost use Rattle.compact_values.specs.Compact.{compact};
ghost use Rattle.compact_values.specs.Ids.{exguid, cell_id};
ghost use Rattle.compact_values.specs.Items.{item, array};
ghost use Rattle.doc_model.specs.wire.WrittenElements.{size_if_any, declaration_kind, declaration_fields, declaration_bytes, data_kind, data_fields, data_bytes, declarations_bytes, datas_bytes, blob_bytes};

use compact_values::{
    ExGuid, NoMemory, Octets, write_cells, write_compact, write_exguid, write_ids, write_item,
};
use doc_model::{Content, Object, data_size, declaration_size, item_size};
use stream_objects::{finish, object_types, start};

// The numbers of references, which end a declaration.
fn write_counts(out: &mut Octets, object: &Object) -> Result<(), NoMemory>
    ensures ok { OnOk result (out.new ≡ out.old ++ (compact (length object.now.references) ++ compact (length object.now.cells))) }
    ensures err { OnErr result (take (length out.old) out.new ≡ out.old) }
{
    write_compact(out, object.references.len() as u64)?;
    write_compact(out, object.cells.len() as u64)
}

// The size in the declaration of a blob, which is left out where it is 0.
fn write_size_if_any(out: &mut Octets, size: u64) -> Result<(), NoMemory>
    ensures ok { OnOk result (out.new ≡ out.old ++ size_if_any size) }
    ensures err { OnErr result (out.new ≡ out.old) }
{
    if size == 0 {
        Ok(())
    } else {
        write_compact(out, size)
    }
}

// The fields of the declaration of an object that has its bytes with it.
fn write_object_declaration(out: &mut Octets, object: &Object) -> Result<(), NoMemory>
    ensures ok { OnOk result (out.new ≡ out.old ++ (exguid object.now.id ++ compact object.now.partition ++ compact object.now.size ++ (compact (length object.now.references) ++ compact (length object.now.cells)))) }
    ensures err { OnErr result (take (length out.old) out.new ≡ out.old) }
{
    write_exguid(out, &object.id)?;
    write_compact(out, object.partition)?;
    write_compact(out, object.size)?;
    write_counts(out, object)
}

// The fields of the declaration of an object whose bytes are in a blob.
fn write_blob_declaration(out: &mut Octets, object: &Object, blob: &ExGuid) -> Result<(), NoMemory>
    ensures ok { OnOk result (out.new ≡ out.old ++ (exguid object.now.id ++ exguid blob.now ++ compact object.now.partition ++ size_if_any object.now.size ++ (compact (length object.now.references) ++ compact (length object.now.cells)))) }
    ensures err { OnErr result (take (length out.old) out.new ≡ out.old) }
{
    write_exguid(out, &object.id)?;
    write_exguid(out, blob)?;
    write_compact(out, object.partition)?;
    write_size_if_any(out, object.size)?;
    write_counts(out, object)
}

// The fields of a declaration.
fn write_declaration_fields(out: &mut Octets, object: &Object) -> Result<(), NoMemory>
    ensures ok { OnOk result (out.new ≡ out.old ++ declaration_fields object.now object.now.content) }
    ensures err { OnErr result (take (length out.old) out.new ≡ out.old) }
{
    match &object.content {
        Content::Inline { bytes: _ } => write_object_declaration(out, object),
        Content::Apart { blob } => write_blob_declaration(out, object, blob),
    }
}

// The type of a declaration.
fn declaration_kind(content: &Content) -> u16
    ensures { result ≡ declaration_kind content.now }
{
    match content {
        Content::Inline { bytes: _ } => object_types::OBJECT_GROUP_OBJECT_DECLARE,
        Content::Apart { blob: _ } => object_types::OBJECT_GROUP_OBJECT_BLOB_DATA_DECLARATION,
    }
}

// The declaration of an object.
#[tactic(auto, unfolding(doc_model::specs::wire::WrittenElements::declaration_bytes, stream_objects::specs::Written::started))]
fn write_declaration(out: &mut Octets, object: &Object) -> Result<(), NoMemory>
    ensures ok { OnOk result (out.new ≡ out.old ++ declaration_bytes object.now) }
    ensures err { OnErr result (take (length out.old) out.new ≡ out.old) }
{
    start(
        out,
        declaration_kind(&object.content),
        false,
        declaration_size(object),
    )?;
    write_declaration_fields(out, object)
}

// The declarations of objects, in order.
fn write_each_declaration(out: &mut Octets, objects: &[Object]) -> Result<(), NoMemory>
    ensures ok { OnOk result (out.new ≡ out.old ++ flat_map declaration_bytes objects.now) }
    ensures err { OnErr result (take (length out.old) out.new ≡ out.old) }
{
    for object in objects {
        write_declaration(out, object)?;
    }
    Ok(())
}

// The declarations of a group.
#[tactic(auto, unfolding(doc_model::specs::wire::WrittenElements::declarations_bytes, stream_objects::specs::Written::started))]
fn write_declarations(out: &mut Octets, objects: &[Object]) -> Result<(), NoMemory>
    ensures ok { OnOk result (out.new ≡ out.old ++ declarations_bytes objects.now) }
    ensures err { OnErr result (take (length out.old) out.new ≡ out.old) }
{
    start(out, object_types::OBJECT_GROUP_DECLARATIONS, true, 0)?;
    write_each_declaration(out, objects)?;
    finish(out, object_types::OBJECT_GROUP_DECLARATIONS)
}

// The fields of data.
fn write_data_fields(out: &mut Octets, object: &Object) -> Result<(), NoMemory>
    ensures ok { OnOk result (out.new ≡ out.old ++ data_fields object.now object.now.content) }
    ensures err { OnErr result (take (length out.old) out.new ≡ out.old) }
{
    write_ids(out, object.references.as_slice())?;
    write_cells(out, object.cells.as_slice())?;
    match &object.content {
        Content::Inline { bytes } => write_item(out, bytes.as_slice()),
        Content::Apart { blob } => write_exguid(out, blob),
    }
}

// The type of data.
fn data_kind(content: &Content) -> u16
    ensures { result ≡ data_kind content.now }
{
    match content {
        Content::Inline { bytes: _ } => object_types::OBJECT_GROUP_OBJECT_DATA,
        Content::Apart { blob: _ } => object_types::OBJECT_GROUP_OBJECT_DATA_BLOB_REFERENCE,
    }
}

// The data of an object. No memory holds more bytes than a length can tell.
#[tactic(auto, unfolding(doc_model::specs::wire::WrittenElements::data_bytes, stream_objects::specs::Written::started))]
fn write_data(out: &mut Octets, object: &Object) -> Result<(), NoMemory>
    ensures ok { OnOk result (out.new ≡ out.old ++ data_bytes object.now) }
    ensures err { OnErr result (take (length out.old) out.new ≡ out.old) }
{
    let size = data_size(object);
    if size > u64::MAX as u128 {
        return Err(NoMemory);
    }
    start(out, data_kind(&object.content), false, size as u64)?;
    write_data_fields(out, object)
}

// The data of objects, in order.
fn write_each_data(out: &mut Octets, objects: &[Object]) -> Result<(), NoMemory>
    ensures ok { OnOk result (out.new ≡ out.old ++ flat_map data_bytes objects.now) }
    ensures err { OnErr result (take (length out.old) out.new ≡ out.old) }
{
    for object in objects {
        write_data(out, object)?;
    }
    Ok(())
}

// The data of a group.
#[tactic(auto, unfolding(doc_model::specs::wire::WrittenElements::datas_bytes, stream_objects::specs::Written::started))]
fn write_datas(out: &mut Octets, objects: &[Object]) -> Result<(), NoMemory>
    ensures ok { OnOk result (out.new ≡ out.old ++ datas_bytes objects.now) }
    ensures err { OnErr result (take (length out.old) out.new ≡ out.old) }
{
    start(out, object_types::OBJECT_GROUP_DATA, true, 0)?;
    write_each_data(out, objects)?;
    finish(out, object_types::OBJECT_GROUP_DATA)
}

// The objects of a group: their declarations, and then their data.
pub fn write_objects(out: &mut Octets, objects: &[Object]) -> Result<(), NoMemory>
    ensures ok { OnOk result (out.new ≡ out.old ++ (declarations_bytes objects.now ++ datas_bytes objects.now)) }
    ensures err { OnErr result (take (length out.old) out.new ≡ out.old) }
{
    write_declarations(out, objects)?;
    write_datas(out, objects)
}

// The content of a blob. No memory holds more bytes than a length can tell.
#[tactic(auto, unfolding(doc_model::specs::wire::WrittenElements::blob_bytes, stream_objects::specs::Written::started))]
pub fn write_blob(out: &mut Octets, bytes: &[u8]) -> Result<(), NoMemory>
    ensures ok { OnOk result (out.new ≡ out.old ++ blob_bytes bytes.now) }
    ensures err { OnErr result (take (length out.old) out.new ≡ out.old) }
{
    let size = item_size(bytes);
    if size > u64::MAX as u128 {
        return Err(NoMemory);
    }
    start(out, object_types::OBJECT_DATA_BLOB, false, size as u64)?;
    write_item(out, bytes)
}
