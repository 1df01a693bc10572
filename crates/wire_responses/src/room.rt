// How much room a response takes, so that it doesn't grow by doubling: the bytes of files are counted, and for each object
// and each element about what its ids and numbers take. Where it is too little the response grows.
ghost use Rattle.std.specs.Prelude.{◌≡◌, IfOk, []};

use compact_values::{NoMemory, Octets};
use doc_model::{Answer, Body, Content, NumberedElement, Object, Reply, Submitted};
use std::alloc::Global;

/// About what the ids and numbers of an object or of an element take.
const OVERHEAD: usize = 64;

// The bytes that an object has with it.
fn object_room(object: &Object) -> usize {
    match &object.content {
        Content::Inline { bytes } => bytes.len().saturating_add(OVERHEAD),
        Content::Apart { .. } => OVERHEAD,
    }
}

fn objects_room(objects: &[Object]) -> usize {
    let mut room = OVERHEAD;
    for object in objects {
        room = room.saturating_add(object_room(object));
    }
    room
}

fn element_room(numbered: &NumberedElement) -> usize {
    match &numbered.element.body {
        Body::Group { objects } => objects_room(objects.as_slice()),
        Body::Blob { bytes } => bytes.len().saturating_add(OVERHEAD),
        _ => OVERHEAD,
    }
}

fn elements_room(elements: &[NumberedElement]) -> usize {
    let mut room = 0_usize;
    for numbered in elements {
        room = room.saturating_add(element_room(numbered));
    }
    room
}

fn answer_room(answer: &Answer) -> usize {
    match &answer.submitted {
        Submitted::Answered {
            reply: Reply::Pulled { elements, .. },
        } => elements_room(elements.as_slice()).saturating_add(OVERHEAD),
        _ => OVERHEAD,
    }
}

fn answers_room(answers: &[Answer]) -> usize {
    let mut room = OVERHEAD;
    for answer in answers {
        room = room.saturating_add(answer_room(answer));
    }
    room
}

/// An empty list with room for a response that holds these answers.
pub fn with_room(alloc: Global, answers: &[Answer]) -> Result<Octets, NoMemory>
    ensures { IfOk result (λ out. out ≡ []) }
{
    match Vec::with_capacity(alloc, answers_room(answers)) {
        Ok(bytes) => Ok(Octets::from_vec(bytes)),
        Err(_) => Err(NoMemory),
    }
}
