// What the index of an upload says, once its elements are there.
ghost use Rattle.std.specs.Prelude.{◌≡◌, true, not, None, IfOk, option_map, find};
ghost use Rattle.std.specs.List.{list_all};
ghost use Rattle.doc_model.specs.rules.Reached.{absent, names};
ghost use Rattle.doc_model.specs.rules.Effects.{first_refusal};
ghost use Rattle.plain_core.specs.Cataloging.{listed};
ghost use Rattle.plain_core.specs.Refusing.{content_reasons, file_reasons};
ghost use Rattle.plain_core.specs.Weighing.{all_few};

use crate::catalog::Catalog;
use crate::chains::has_chains;
use crate::file_length::{FileLength, file_length_at};
use crate::naming::names;
use crate::reaching::is_heavy;
use compact_values::{ExGuid, NoMemory};
use doc_model::{Code, Name};
use std::alloc::Global;

// The first of these names that isn't there.
fn first_absent(named: &[Name]) -> Option<ExGuid>
    ensures { result ≡ option_map (λ n. n.id) (find (λ n. not n.found) named.now) }
{
    for name in named {
        if !name.found {
            return Some(name.id);
        }
    }
    None
}

/// Why what an index says refuses it: something that it names isn't there, it is no file, or it is too much.
pub fn content_refusal(
    alloc: Global,
    catalog: &Catalog<'_>,
    index: ExGuid,
) -> Result<Option<Code>, NoMemory>
    requires { all_few (listed catalog.now) ≡ true }
    ensures { IfOk result (λ r. r ≡ first_refusal (content_reasons (listed catalog.now) index)) }
{
    let all = names(alloc, catalog, index)?;
    if first_absent(all.as_slice()).is_some() {
        return Ok(Some(Code::NotFound));
    }
    if !has_chains(alloc, catalog, index)? {
        return Ok(Some(Code::Unserializable));
    }
    file_refusal(alloc, catalog, index, all.as_slice())
}

// Why the file of an index that names these, which are all there, refuses it: there is none, or it is too much.
fn file_refusal(
    alloc: Global,
    catalog: &Catalog<'_>,
    index: ExGuid,
    named: &[Name],
) -> Result<Option<Code>, NoMemory>
    requires named { named.now ≡ names (listed catalog.now) index }
    requires found { absent (listed catalog.now) index ≡ None }
    requires few { all_few (listed catalog.now) ≡ true }
    ensures { IfOk result (λ r. r ≡ first_refusal (file_reasons (listed catalog.now) index)) }
{
    match file_length_at(alloc, catalog, index)? {
        FileLength::Undefined => Ok(Some(Code::Unserializable)),
        FileLength::TooLarge => Ok(Some(Code::StorageLimit)),
        FileLength::Known { .. } => {
            if is_heavy(alloc, catalog, named)? {
                Ok(Some(Code::StorageLimit))
            } else {
                Ok(None)
            }
        }
    }
}
