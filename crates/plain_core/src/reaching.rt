// What is reached from an index.
ghost use Rattle.std.specs.Prelude.{◌≡◌, ◌+◌, ◌<◌, true, nat_lt, map, IfOk};
ghost use Rattle.std.specs.Option.{MatchOption};
ghost use Rattle.doc_model.specs.rules.Limits.{most_reached_weight};
ghost use Rattle.doc_model.specs.rules.Weights.{weight_of};
ghost use Rattle.plain_core.specs.Cataloging.{listed};
ghost use Rattle.plain_core.specs.Reaching.{among};
ghost use Rattle.plain_core.specs.Weighing.{all_few};

use crate::catalog::Catalog;
use compact_values::{ExGuid, IdIndex, NoMemory};
use doc_model::limits::MOST_REACHED_WEIGHT;
use doc_model::{Element, Name, weight};
use std::alloc::Global;

/// Whether the elements that are named weigh more than 24 MiB.
pub fn is_heavy(alloc: Global, catalog: &Catalog<'_>, named: &[Name]) -> Result<bool, NoMemory>
    requires { all_few (listed catalog.now) ≡ true }
    ensures { IfOk result (λ heavy. heavy ≡ nat_lt most_reached_weight (weight_of (among (map (λ n. n.id) named.now) (listed catalog.now)))) }
{
    let ids = ids_of(alloc, named)?;
    Ok(weigh_more(&ids, catalog.added(), catalog.fresh(), MOST_REACHED_WEIGHT))
}

// The ids of these names.
fn ids_of(alloc: Global, names: &[Name]) -> Result<IdIndex, NoMemory>
    ensures { IfOk result (λ ids. ids ≡ map (λ n. n.id) names.now) }
{
    let mut ids = IdIndex::new(alloc);
    for name in names {
        ids.push(name.id)?;
    }
    Ok(ids)
}

// Whether those of both together whose ids are named weigh more.
fn weigh_more(named: &IdIndex, front: &[Element], back: &[Element], limit: u128) -> bool
    requires front { all_few front.now ≡ true }
    requires back { all_few back.now ≡ true }
    ensures { result ≡ nat_lt limit (weight_of (among named.now front.now) + weight_of (among named.now back.now)) }
{
    match weigh_named(named, front, limit) {
        None => true,
        Some(left) => weigh_named(named, back, left).is_none(),
    }
}

// What is left of a limit after those of the elements whose ids are named, None where they weigh more.
fn weigh_named(named: &IdIndex, elements: &[Element], limit: u128) -> Option<u128>
    requires { all_few elements.now ≡ true }
    ensures { MatchOption result (limit < weight_of (among named.now elements.now)) (λ left. left + weight_of (among named.now elements.now) ≡ limit) }
{
    let mut left = limit;
    for element in elements {
        if named.contains(element.id) {
            let own = weight(element);
            if left < own {
                return None;
            }
            left -= own;
        }
    }
    Some(left)
}
