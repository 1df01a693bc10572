// The revisions, groups and blobs that an index names, each of them once.
ghost use Rattle.std.specs.Prelude.{◌≡◌, [], true, IfOk, OnOk, fold, flat_map};
ghost use Rattle.compact_values.specs.SameIds.{same_id};
ghost use Rattle.compact_values.specs.IdPlaces.{with_new};
ghost use Rattle.doc_model.specs.rules.Reached.{blob_of, blobs_of, each_once, enough, groups_by, mapping_of, named_along, named_blobs, named_groups, named_revisions};
ghost use Rattle.plain_core.specs.Cataloging.{listed};
ghost use Rattle.plain_core.specs.Naming.{groups_in, is_closed, targets_by};

use crate::catalog::Catalog;
use crate::revisions::Revisions;
use compact_values::{ExGuid, IdIndex, NoMemory};
use doc_model::limits::MOST_REVISIONS;
use doc_model::{Content, Object};
use std::alloc::Global;

/// Names a revision and, in turn, the bases, up to one that was named before.
fn name_along(
    catalog: &Catalog<'_>,
    revisions: &Revisions<'_>,
    named: &mut IdIndex,
    revision: ExGuid,
) -> Result<(), NoMemory>
    requires { is_closed (listed catalog.now) revisions.now.maps.now named.old ≡ true }
    ensures named { OnOk result (named.new ≡ fold (with_new same_id) named.old (named_along (listed catalog.now) revisions.now.maps.now (enough revisions.now.maps.now) revision)) }
    ensures closed { OnOk result (is_closed (listed catalog.now) revisions.now.maps.now named.new ≡ true) }
{
    let mut left = MOST_REVISIONS + revisions.maps.len() + 1;
    let mut at = revision;
    while left > 0 {
        match at {
            ExGuid::Null => return Ok(()),
            ExGuid::Id { .. } => {
                if named.contains(at) {
                    return Ok(());
                }
                named.push(at)?;
                at = revisions.base(catalog, at);
                left -= 1;
            }
        }
    }
    Ok(())
}

/// The revisions that are named from these.
pub fn name_revisions(
    alloc: Global,
    catalog: &Catalog<'_>,
    revisions: &Revisions<'_>,
    currents: &[ExGuid],
) -> Result<IdIndex, NoMemory>
    ensures { IfOk result (λ named. named ≡ named_revisions (listed catalog.now) revisions.now.maps.now currents.now) }
{
    let mut named = IdIndex::new(alloc);
    for current in currents {
        name_along(catalog, revisions, &mut named, *current)?;
    }
    Ok(named)
}

// The manifests to which these revisions are mapped.
fn targets_of(
    alloc: Global,
    revisions: &Revisions<'_>,
    named: &[ExGuid],
) -> Result<IdIndex, NoMemory>
    ensures { IfOk result (λ targets. targets ≡ each_once (flat_map (λ r. targets_by (mapping_of revisions.now.maps.now r)) named.now)) }
{
    let mut targets = IdIndex::new(alloc);
    for revision in named {
        match revisions.mapping(*revision) {
            None => {}
            Some(m) => targets.join(m.target)?,
        }
    }
    Ok(targets)
}

// The groups that these manifests name.
fn groups_of(alloc: Global, catalog: &Catalog<'_>, targets: &[ExGuid]) -> Result<IdIndex, NoMemory>
    ensures { IfOk result (λ groups. groups ≡ each_once (flat_map (groups_in (listed catalog.now)) targets.now)) }
{
    let mut groups = IdIndex::new(alloc);
    for target in targets {
        match catalog.revision_at(*target) {
            None => {}
            Some(m) => groups.join_all(m.groups.as_slice())?,
        }
    }
    Ok(groups)
}

/// The groups that these revisions name.
pub fn name_groups(
    alloc: Global,
    catalog: &Catalog<'_>,
    revisions: &Revisions<'_>,
    named: &[ExGuid],
) -> Result<IdIndex, NoMemory>
    ensures { IfOk result (λ groups. groups ≡ named_groups (listed catalog.now) revisions.now.maps.now named.now) }
{
    let targets = targets_of(alloc, revisions, named)?;
    let groups = groups_of(alloc, catalog, targets.as_slice())?;
    Ok(groups)
}

// Names the blobs that a group's objects name.
fn name_blobs_of(objects: &[Object], blobs: &mut IdIndex) -> Result<(), NoMemory>
    ensures { OnOk result (blobs.new ≡ fold (with_new same_id) blobs.old (flat_map (λ o. blob_of o.content) objects.now)) }
{
    for object in objects {
        match &object.content {
            Content::Inline { .. } => {}
            Content::Apart { blob } => blobs.join(*blob)?,
        }
    }
    Ok(())
}

/// The blobs that these groups name.
pub fn name_blobs(
    alloc: Global,
    catalog: &Catalog<'_>,
    groups: &[ExGuid],
) -> Result<IdIndex, NoMemory>
    ensures { IfOk result (λ blobs. blobs ≡ named_blobs (listed catalog.now) groups.now) }
{
    let mut blobs = IdIndex::new(alloc);
    for group in groups {
        match catalog.group_at(*group) {
            None => {}
            Some(objects) => name_blobs_of(objects.as_slice(), &mut blobs)?,
        }
    }
    Ok(blobs)
}
