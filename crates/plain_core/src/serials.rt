// The serial numbers of what was sent.
ghost use Rattle.std.specs.Prelude.{◌≡◌, ◌+◌, ◌<◌, ◌≤◌, ◌^◌, ◌++◌, map, filter, IfOk, OnOk, length};
ghost use Rattle.doc_model.specs.rules.Finding.{numbered_from};
ghost use Rattle.doc_model.specs.rules.Limits.{most_added};
ghost use Rattle.plain_core.specs.Sending.{is_one_of};

use compact_values::{IdIndex, NoMemory, Seq};
use doc_model::Element;
use std::alloc::Global;

fn add_ids(elements: &[Element], ids: &mut IdIndex) -> Result<(), NoMemory>
    ensures { OnOk result (ids.new ≡ ids.old ++ map (λ e. e.id) elements.now) }
{
    for element in elements {
        ids.push(element.id)?;
    }
    Ok(())
}

// Adds the serial numbers of those that were sent, where the first of the elements has the one after `before`.
fn add_serials(
    sent: &IdIndex,
    elements: &[Element],
    before: u64,
    serials: &mut Seq<u64>,
) -> Result<(), NoMemory>
    requires { before + length elements.now < 2 ^ 64 }
    ensures { OnOk result (serials.new ≡ serials.old ++ map (λ n. n.serial) (filter (is_one_of sent.now) (numbered_from (before + 1) elements.now))) }
{
    let mut serial = before;
    for element in elements {
        serial += 1;
        if sent.contains(element.id) {
            serials.push(serial)?;
        }
    }
    Ok(())
}

/// The ids of both lists together.
pub fn ids_of(alloc: Global, first: &[Element], then: &[Element]) -> Result<IdIndex, NoMemory>
    ensures { IfOk result (λ ids. ids ≡ map (λ e. e.id) (first.now ++ then.now)) }
{
    let mut ids = IdIndex::new(alloc);
    add_ids(first, &mut ids)?;
    add_ids(then, &mut ids)?;
    Ok(ids)
}

/// The serial numbers that those of the sent ids have in a document of both lists together.
pub fn serials_in(
    alloc: Global,
    sent: &IdIndex,
    added: &[Element],
    fresh: &[Element],
) -> Result<Seq<u64>, NoMemory>
    requires { length (added.now ++ fresh.now) ≤ most_added }
    ensures { IfOk result (λ serials. serials ≡ map (λ n. n.serial) (filter (is_one_of sent.now) (numbered_from 1 (added.now ++ fresh.now)))) }
{
    let mut serials = Seq::new(alloc);
    add_serials(sent, added, 0, &mut serials)?;
    add_serials(sent, fresh, added.len() as u64, &mut serials)?;
    Ok(serials)
}
