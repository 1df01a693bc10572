// How long the file at an index is.
ghost use Rattle.std.specs.Prelude.{◌≡◌, None, map, IfOk};
ghost use Rattle.doc_model.specs.rules.Files.{file};
ghost use Rattle.doc_model.specs.rules.Reached.{absent};
ghost use Rattle.plain_core.specs.Cataloging.{listed};
ghost use Rattle.plain_core.specs.Filing.{file_with_bytes};
ghost use Rattle.plain_core.specs.Measuring.{length_of_file, length_answered};
ghost use Rattle.plain_core.specs.Sayings.{seen_manifest};

use crate::catalog::Catalog;
use crate::file_objects::{objects_of, root_object};
use crate::root_chain::root_chain;
use crate::sayings::Manifest;
use compact_values::{ExGuid, NoMemory};
use file_nodes::{NodeFault, file_length};
use std::alloc::Global;

/// How long the file at an index is.
#[derive(Clone, Copy, Debug, PartialEq, Eq)]
pub enum FileLength {
    /// The file is not defined.
    Undefined,
    /// The file has more than 16 MiB.
    TooLarge,
    /// The file has so many bytes, at most 16 MiB.
    Known { bytes: u64 },
}

/// How long the file at an index is of which all that it names is there. Nothing is joined for it.
pub fn file_length_at(
    alloc: Global,
    catalog: &Catalog<'_>,
    index: ExGuid,
) -> Result<FileLength, NoMemory>
    requires { absent (listed catalog.now) index ≡ None }
    ensures { IfOk result (λ length. length ≡ length_of_file (file (listed catalog.now) index)) }
{
    match root_chain(alloc, catalog, index)? {
        None => Ok(FileLength::Undefined),
        Some(manifests) => length_of_chain(alloc, catalog, manifests.as_slice()),
    }
}

// How long the file of these revisions is.
fn length_of_chain(
    alloc: Global,
    catalog: &Catalog<'_>,
    manifests: &[Manifest<'_>],
) -> Result<FileLength, NoMemory>
    ensures { IfOk result (λ length. length ≡ length_of_file (file_with_bytes (listed catalog.now) (map seen_manifest manifests.now))) }
{
    let Some(root) = root_object(manifests) else {
        return Ok(FileLength::Undefined);
    };
    let objects = objects_of(alloc, catalog, manifests)?;
    length_answered(file_length(alloc, &objects, &root))
}

// What is answered for the length of a root's file, or for the fault for which there is none.
fn length_answered(found: Result<u64, NodeFault>) -> Result<FileLength, NoMemory>
    ensures { result ≡ length_answered found }
{
    match found {
        Ok(bytes) => Ok(FileLength::Known { bytes }),
        Err(NodeFault::NoMemory) => Err(NoMemory),
        Err(NodeFault::TooLarge) => Ok(FileLength::TooLarge),
        Err(
            NodeFault::Absent { .. }
            | NodeFault::TooHigh
            | NodeFault::NotANode { .. }
            | NodeFault::SizeDiffers { .. },
        ) => Ok(FileLength::Undefined),
    }
}
