// The file at an index.
ghost use Rattle.std.specs.Prelude.{◌≡◌, None, map, IfOk};
ghost use Rattle.doc_model.specs.rules.Files.{file};
ghost use Rattle.doc_model.specs.rules.Reached.{absent};
ghost use Rattle.plain_core.specs.Cataloging.{listed};
ghost use Rattle.plain_core.specs.Filing.{IsFiled, without_file, file_with_bytes};
ghost use Rattle.plain_core.specs.Sayings.{seen_manifest};

use crate::catalog::Catalog;
use crate::file_objects::{objects_of, root_object};
use crate::root_chain::root_chain;
use crate::sayings::Manifest;
use compact_values::{ExGuid, NoMemory, Octets};
use file_nodes::{NodeFault, file_of};
use std::alloc::Global;

/// The file at an index.
#[derive(Debug, Drop)]
pub enum Filed {
    /// The file is not defined.
    Undefined,
    /// The file has more than 16 MiB.
    TooLarge,
    /// The file, which has at most 16 MiB.
    File { bytes: Octets },
}

/// The file at an index of which all that it names is there.
pub fn file_at(alloc: Global, catalog: &Catalog<'_>, index: ExGuid) -> Result<Filed, NoMemory>
    requires { absent (listed catalog.now) index ≡ None }
    ensures { IfOk result (λ filed. IsFiled filed (file (listed catalog.now) index)) }
{
    match root_chain(alloc, catalog, index)? {
        None => Ok(Filed::Undefined),
        Some(manifests) => file_of_chain(alloc, catalog, manifests.as_slice()),
    }
}

// The file of these revisions.
fn file_of_chain(
    alloc: Global,
    catalog: &Catalog<'_>,
    manifests: &[Manifest<'_>],
) -> Result<Filed, NoMemory>
    ensures { IfOk result (λ filed. IsFiled filed (file_with_bytes (listed catalog.now) (map seen_manifest manifests.now))) }
{
    let Some(root) = root_object(manifests) else {
        return Ok(Filed::Undefined);
    };
    let objects = objects_of(alloc, catalog, manifests)?;
    match file_of(alloc, &objects, &root) {
        Ok(bytes) => Ok(Filed::File { bytes }),
        Err(fault) => without_file(fault),
    }
}

// What is answered where objects stand for no file, or for a large one.
fn without_file(fault: NodeFault) -> Result<Filed, NoMemory>
    ensures { result ≡ without_file fault }
{
    match fault {
        NodeFault::NoMemory => Err(NoMemory),
        NodeFault::TooLarge => Ok(Filed::TooLarge),
        NodeFault::Absent { .. }
        | NodeFault::TooHigh
        | NodeFault::NotANode { .. }
        | NodeFault::SizeDiffers { .. } => Ok(Filed::Undefined),
    }
}
