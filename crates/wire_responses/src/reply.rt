// What a sub-response holds.
ghost use Rattle.std.specs.Prelude.{◌≡◌};
ghost use Rattle.stream_objects.specs.Objects.{start_of};
ghost use Rattle.data_elements.specs.Answers.{Gives};
ghost use Rattle.wire_responses.specs.ResponseReading.{number_at, zero_at, failure_at, success_at, access_at, query_at, allocate_at, known_at};

use crate::error_guids::{CELL_ERROR, HRESULT_ERROR};
use crate::rows::{allocate_row, number_row, query_row};
use compact_values::{ExGuid, Guid};
use data_elements::{ElementFault, guid_row, has_no_fields, read_knowledge};
use doc_model::Knowledge;
use std::alloc::Global;
use stream_objects::{Tree, object_types, only_child};

/// The object isn't in its form.
pub fn fault(tree: &Tree) -> ElementFault
    ensures { result ≡ ElementFault.SchemaFault (start_of tree.now) }
{
    ElementFault::SchemaFault {
        place: tree.fields.from,
    }
}

// The number of an error.
fn read_number(bytes: &[u8], tree: &Tree) -> Result<u32, ElementFault>
    ensures { Gives result (number_at bytes.now tree.now) }
{
    match number_row(bytes, tree) {
        Some(number) => Ok(number),
        None => Err(fault(tree)),
    }
}

// Whether the number of an error is 0.
fn check_zero(bytes: &[u8], tree: &Tree) -> Result<(), ElementFault>
    ensures { Gives result (zero_at bytes.now tree.now) }
{
    match number_row(bytes, tree) {
        Some(0) => Ok(()),
        _ => Err(fault(tree)),
    }
}

/// The number of a cell error.
#[tactic(auto, unfolding(crate::specs::ResponseReading::failure_at))]
pub fn read_failure(bytes: &[u8], tree: &Tree) -> Result<u32, ElementFault>
    ensures { Gives result (failure_at bytes.now tree.now) }
{
    let Some(guid) = guid_row(bytes, tree) else {
        return Err(fault(tree));
    };
    if guid.number != CELL_ERROR.number {
        return Err(fault(tree));
    }
    match only_child(tree, object_types::CELL_ERROR) {
        Some(child) => read_number(bytes, child),
        None => Err(fault(tree)),
    }
}

// Whether an error is an HRESULT of 0, which is none.
#[tactic(auto, unfolding(crate::specs::ResponseReading::success_at))]
fn check_success(bytes: &[u8], tree: &Tree) -> Result<(), ElementFault>
    ensures { Gives result (success_at bytes.now tree.now) }
{
    let Some(guid) = guid_row(bytes, tree) else {
        return Err(fault(tree));
    };
    if guid.number != HRESULT_ERROR.number {
        return Err(fault(tree));
    }
    match only_child(tree, object_types::HRESULT_ERROR) {
        Some(child) => check_zero(bytes, child),
        None => Err(fault(tree)),
    }
}

/// Whether an object says that there is access.
#[tactic(auto, unfolding(crate::specs::ResponseReading::access_at))]
pub fn check_access(bytes: &[u8], tree: &Tree) -> Result<(), ElementFault>
    ensures { Gives result (access_at bytes.now tree.now) }
{
    if !has_no_fields(bytes, tree) {
        return Err(fault(tree));
    }
    match only_child(tree, object_types::RESPONSE_ERROR) {
        Some(child) => check_success(bytes, child),
        None => Err(fault(tree)),
    }
}

/// The index of a whole query answer.
#[tactic(auto, unfolding(crate::specs::ResponseReading::query_at))]
pub fn read_query(bytes: &[u8], tree: &Tree) -> Result<ExGuid, ElementFault>
    ensures { Gives result (query_at bytes.now tree.now) }
{
    match query_row(bytes, tree) {
        Some((index, 0)) => Ok(index),
        _ => Err(fault(tree)),
    }
}

/// The numbers of an allocate answer.
#[tactic(auto, unfolding(crate::specs::ResponseReading::allocate_at))]
pub fn read_allocate(bytes: &[u8], tree: &Tree) -> Result<(Guid, (u64, u64)), ElementFault>
    ensures { Gives result (allocate_at bytes.now tree.now) }
{
    match allocate_row(bytes, tree) {
        Some(numbers) => Ok(numbers),
        None => Err(fault(tree)),
    }
}

/// What a client knows, by the reader on lists that a response is read by; `read_knowledge` says which object it is.
pub fn read_known(alloc: Global, bytes: &[u8], tree: &Tree) -> Result<Knowledge, ElementFault>
    ensures { Gives result (known_at bytes.now tree.now) }
{
    read_knowledge(alloc, bytes, tree)
}
