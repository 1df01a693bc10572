// What an element weighs, as it is kept with it.
ghost use Rattle.std.specs.Prelude.{◌≡◌, IsTrue, ◌↔◌, ◌≤◌, ◌<◌, ◌^◌};
ghost use Rattle.doc_model.specs.rules.Limits.{most_objects};
ghost use Rattle.doc_model.specs.rules.Weights.{objects_in, objects_written};
ghost use Rattle.element_store.specs.Kept.{kept_weight};

use doc_model::limits::MOST_OBJECTS;
use doc_model::{Body, Element, weight};

// How many stream objects are written in an element.
fn objects_in(body: &Body) -> u128
    ensures count { result ≡ objects_in body.now }
    ensures few { result < 2 ^ 70 }
{
    match body {
        Body::Index {
            manifests,
            cells,
            revisions,
        } => manifests.len() as u128 + cells.len() as u128 + revisions.len() as u128,
        Body::Storage { roots, .. } => 1 + roots.len() as u128,
        Body::Cell { .. } => 1,
        Body::Revision { roots, groups, .. } => 1 + roots.len() as u128 + groups.len() as u128,
        Body::Group { objects } => 2 + 2 * objects.len() as u128,
        Body::Blob { .. } => 1,
    }
}

/// The weight of an element that is written in few enough stream objects to be weighed, otherwise 0.
pub fn kept_weight(element: &Element) -> u128
    ensures { result ≡ kept_weight element.now }
{
    if objects_in(&element.body) < MOST_OBJECTS as u128 {
        weight(element)
    } else {
        0
    }
}
