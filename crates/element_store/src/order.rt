// The places of elements in the order of their ids.
ghost use Rattle.std.specs.Prelude.{◌≡◌, ◌<◌, ◌≤◌, true, length, map, IfSome};
ghost use Rattle.compact_values.specs.IdPlaces.{place_of};
ghost use Rattle.element_store.specs.Ordered.{comes_first, id_at, are_ordered, rank_in, IsOrderOf};

use compact_values::ExGuid;
use doc_model::Element;

/// Whether an id comes before another: null first, then by the GUID's number and the value.
fn comes_first(a: ExGuid, b: ExGuid) -> bool
    ensures { result ≡ comes_first a b }
{
    match a {
        ExGuid::Null => match b {
            ExGuid::Null => false,
            ExGuid::Id { .. } => true,
        },
        ExGuid::Id { guid, value } => match b {
            ExGuid::Null => false,
            ExGuid::Id { guid: g, value: v } => {
                if guid.is(g) {
                    value < v
                } else {
                    guid.number < g.number
                }
            }
        },
    }
}

/// The id of the element at a place.
pub fn id_at(elements: &[Element], place: usize) -> ExGuid
    ensures { result ≡ id_at elements.now place }
{
    match elements.get(place) {
        None => ExGuid::Null,
        Some(element) => element.id,
    }
}

/// How many of the places, from the front, come before an id: found by halving. It takes no memory.
pub fn rank(elements: &[Element], order: &[usize], id: ExGuid) -> usize
    requires { are_ordered (id_at elements.now) order.now ≡ true }
    ensures rank { result ≡ rank_in (id_at elements.now) order.now id }
    ensures within { result ≤ length order.now }
{
    order.partition_point(|place| comes_first(id_at(elements, *place), id))
}

/// The place of the element with this id, None exactly where none has it. It takes no memory.
pub fn place(elements: &[Element], order: &[usize], id: ExGuid) -> Option<usize>
    requires { IsOrderOf elements.now order.now }
    ensures place { result ≡ place_of (map (λ e. e.id) elements.now) id }
    ensures within { IfSome result (λ place. place < length elements.now) }
{
    match order.get(rank(elements, order, id)) {
        None => None,
        Some(place) => {
            if id_at(elements, *place).is(id) {
                Some(*place)
            } else {
                None
            }
        }
    }
}
