// The objects that a file is made of.
ghost use Rattle.std.specs.Prelude.{◌≡◌, ◌∷◌, ◌++◌, map, IfOk, OnOk, option_copied, []};
ghost use Rattle.doc_model.specs.rules.Files.{own_bytes, root_object};
ghost use Rattle.plain_core.specs.Cataloging.{listed};
ghost use Rattle.plain_core.specs.Filing.{stored, groups_named, objects_in};
ghost use Rattle.plain_core.specs.Sayings.{seen_manifest};

use crate::catalog::Catalog;
use crate::sayings::Manifest;
use compact_values::{ExGuid, IdIndex, NoMemory, Octets};
use doc_model::{Content, Object};
use file_nodes::ObjectMap;
use std::alloc::Global;

/// The object of the first root along these revisions.
pub fn root_object(manifests: &[Manifest<'_>]) -> Option<ExGuid>
    ensures { result ≡ root_object (map seen_manifest manifests.now) }
{
    for manifest in manifests {
        if let Some(root) = manifest.roots.as_slice().first() {
            return Some(root.object);
        }
    }
    None
}

// The groups that these revisions name, each once.
fn groups_named(alloc: Global, manifests: &[Manifest<'_>]) -> Result<IdIndex, NoMemory>
    ensures { IfOk result (λ groups. groups ≡ groups_named (map seen_manifest manifests.now)) }
{
    let mut groups = IdIndex::new(alloc);
    for manifest in manifests {
        groups.join_all(manifest.groups.as_slice())?;
    }
    Ok(groups)
}

// The objects of these groups, in order.
fn objects_in<'a>(
    alloc: Global,
    catalog: &'a Catalog<'_>,
    groups: &[ExGuid],
) -> Result<ObjectMap<'a>, NoMemory>
    ensures { IfOk result (λ all. all ≡ objects_in (listed catalog.now) groups.now) }
{
    let mut all = ObjectMap::new(alloc);
    for group in groups {
        match catalog.group_at(*group) {
            None => {}
            Some(objects) => add_objects(catalog, objects.as_slice(), &mut all)?,
        }
    }
    Ok(all)
}

/// The objects of these revisions, borrowed. The objects of a group that several of them name are there once.
pub fn objects_of<'a>(
    alloc: Global,
    catalog: &'a Catalog<'_>,
    manifests: &[Manifest<'_>],
) -> Result<ObjectMap<'a>, NoMemory>
    ensures { IfOk result (λ all. all ≡ objects_in (listed catalog.now) (groups_named (map seen_manifest manifests.now))) }
{
    let groups = groups_named(alloc, manifests)?;
    let objects = objects_in(alloc, catalog, groups.as_slice())?;
    Ok(objects)
}

// Adds these objects.
fn add_objects<'a>(
    catalog: &'a Catalog<'_>,
    objects: &'a [Object],
    all: &mut ObjectMap<'a>,
) -> Result<(), NoMemory>
    ensures { OnOk result (all.new ≡ all.old ++ map (stored (listed catalog.now)) objects.now) }
{
    for object in objects {
        add_object(catalog, object, all)?;
    }
    Ok(())
}

// Adds an object with its own bytes, none where its blob isn't there.
fn add_object<'a>(
    catalog: &'a Catalog<'_>,
    object: &'a Object,
    all: &mut ObjectMap<'a>,
) -> Result<(), NoMemory>
    ensures { OnOk result (all.new ≡ all.old ++ stored (listed catalog.now) object.now ∷ []) }
{
    match own_bytes(catalog, &object.content) {
        None => all.add(object.id, &object.references, &[]),
        Some(bytes) => all.add(object.id, &object.references, bytes.as_slice()),
    }
}

// An object's own bytes.
fn own_bytes<'a>(catalog: &'a Catalog<'_>, content: &'a Content) -> Option<&'a Octets>
    ensures { option_copied result ≡ own_bytes (listed catalog.now) content.now }
{
    match content {
        Content::Inline { bytes } => Some(bytes),
        Content::Apart { blob } => catalog.blob_at(*blob),
    }
}
