// Uploads that aren't complete.
ghost use Rattle.std.specs.Prelude.{◌≡◌, ◌<◌, ◌^◌, IfOk};
ghost use Rattle.doc_model.specs.rules.Puts.{pending, other_parts};

use compact_values::{Copied, ExGuid, NoMemory, Seq};
use doc_model::limits::DAY;
use doc_model::{Element, Part, Parts};
use std::alloc::Global;

/// The elements that are kept for an index.
pub fn pending(parts: &[Part], index: ExGuid) -> &[Element]
    ensures { result.now ≡ pending parts.now index }
{
    match parts.iter().find(|p| p.index.is(index)) {
        None => &[],
        Some(part) => part.elements.as_slice(),
    }
}

/// The uploads for other indexes that aren't a day old.
pub fn other_parts(
    alloc: Global,
    parts: &[Part],
    moment: u64,
    index: ExGuid,
) -> Result<Parts, NoMemory>
    requires { moment < 2 ^ 40 }
    ensures { IfOk result (λ all. all ≡ other_parts parts.now moment index) }
{
    let mut all = Seq::new(alloc);
    for part in parts {
        if !part.index.is(index) && moment < part.moment.saturating_add(DAY) {
            all.push(part.copied(alloc)?)?;
        }
    }
    Ok(all)
}
