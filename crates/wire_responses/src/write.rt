// Writing a response (MS-FSSHTTPB 2.2.3).
ghost use Rattle.std.specs.List.{flat_map};
ghost use Rattle.std.specs.Prelude.{◌≡◌, ◌++◌, All, IfOk, OnOk};
ghost use Rattle.doc_model.specs.wire.Responses.{response, failure, sub_response, pulled_bytes, pulled_package};
ghost use Rattle.doc_model.specs.wire.WrittenElements.{numbered_bytes};
ghost use Rattle.wire_responses.specs.Forms.{HasForm};

use crate::room::with_room;
use crate::write_reply::{status_byte, write_error, write_reply};
use compact_values::{Guid, NoMemory, Octets, Serial, write_compact};
use data_elements::write_element;
use doc_model::{Answer, Answers, NumberedElement, Reply, Submitted};
use std::alloc::Global;
use stream_objects::{begin, finish, object_types};

/// Version 12, least version 11, and the signature of responses.
const FRONT: [u8; 12] = [
    0x0C, 0x00, 0x0B, 0x00, 0x9D, 0xCF, 0x29, 0xF3, 0x39, 0x94, 0x06, 0x9B,
];

// An element, with its number of the document's GUID.
#[tactic(auto, unfolding(doc_model::specs::wire::WrittenElements::numbered_bytes))]
fn write_numbered(out: &mut Octets, guid: Guid, numbered: &NumberedElement) -> Result<(), NoMemory>
    ensures { OnOk result (out.new ≡ out.old ++ numbered_bytes guid numbered.now) }
{
    let number = Serial::Number {
        guid,
        value: numbered.serial,
    };
    write_element(out, &numbered.element, &number)
}

// The elements of a pull, in order.
fn write_elements(
    out: &mut Octets,
    guid: Guid,
    elements: &[NumberedElement],
) -> Result<(), NoMemory>
    ensures { OnOk result (out.new ≡ out.old ++ flat_map (numbered_bytes guid) elements.now) }
{
    for numbered in elements {
        write_numbered(out, guid, numbered)?;
    }
    Ok(())
}

// The elements of an answer, which are none where it isn't that of a pull.
fn write_pulled(out: &mut Octets, submitted: &Submitted) -> Result<(), NoMemory>
    ensures { OnOk result (out.new ≡ out.old ++ pulled_bytes submitted.now) }
{
    match submitted {
        Submitted::Answered {
            reply: Reply::Pulled { guid, elements, .. },
        } => write_elements(out, *guid, elements.as_slice()),
        _ => Ok(()),
    }
}

// The elements of all pulls, in order.
fn write_all_pulled(out: &mut Octets, answers: &[Answer]) -> Result<(), NoMemory>
    ensures { OnOk result (out.new ≡ out.old ++ flat_map (λ a. pulled_bytes a.submitted) answers.now) }
{
    for answer in answers {
        write_pulled(out, &answer.submitted)?;
    }
    Ok(())
}

// The package of the elements of all pulls.
#[tactic(auto, unfolding(doc_model::specs::wire::Responses::pulled_package))]
fn write_package(out: &mut Octets, answers: &[Answer]) -> Result<(), NoMemory>
    ensures { OnOk result (out.new ≡ out.old ++ pulled_package answers.now) }
{
    begin(out, object_types::DATA_ELEMENT_PACKAGE, true, &[0])?;
    write_all_pulled(out, answers)?;
    finish(out, object_types::DATA_ELEMENT_PACKAGE)
}

// A sub-response.
#[tactic(auto, unfolding(doc_model::specs::wire::Responses::sub_response))]
fn write_sub_response(alloc: Global, out: &mut Octets, answer: &Answer) -> Result<(), NoMemory>
    ensures { OnOk result (out.new ≡ out.old ++ sub_response answer.now) }
{
    let mut fields = Octets::new(alloc);
    write_compact(&mut fields, answer.id)?;
    write_compact(&mut fields, answer.kind)?;
    fields.push(status_byte(&answer.submitted))?;
    begin(out, object_types::SUB_RESPONSE, true, fields.as_slice())?;
    write_reply(alloc, out, &answer.submitted)?;
    finish(out, object_types::SUB_RESPONSE)
}

// Every sub-response, in order.
fn write_sub_responses(alloc: Global, out: &mut Octets, answers: &[Answer]) -> Result<(), NoMemory>
    ensures { OnOk result (out.new ≡ out.old ++ flat_map sub_response answers.now) }
{
    for answer in answers {
        write_sub_response(alloc, out, answer)?;
    }
    Ok(())
}

/// The response that holds these answers, in order (MS-FSSHTTPB 2.2.3): the elements of all pulls in one package, then a
/// sub-response for each answer.
#[tactic(auto, unfolding(doc_model::specs::wire::Responses::response))]
pub fn write_cell_response(alloc: Global, answers: &Answers) -> Result<Octets, NoMemory>
    // Each answer has a form in a response.
    requires { All (λ a. HasForm a.submitted) answers.now }
    ensures { IfOk result (λ bytes. bytes ≡ response answers.now) }
{
    let mut out = with_room(alloc, answers.as_slice())?;
    out.extend_from_slice(&FRONT)?;
    begin(&mut out, object_types::RESPONSE, true, &[0])?;
    write_package(&mut out, answers.as_slice())?;
    write_sub_responses(alloc, &mut out, answers.as_slice())?;
    finish(&mut out, object_types::RESPONSE)?;
    Ok(out)
}

/// The response that the whole request failed, with the number of a cell error (MS-FSSHTTPB 2.2.3 and 2.2.3.2).
#[tactic(auto, unfolding(doc_model::specs::wire::Responses::failure))]
pub fn write_cell_failure(alloc: Global, number: u32) -> Result<Octets, NoMemory>
    ensures { IfOk result (λ bytes. bytes ≡ failure number) }
{
    let mut out = Octets::new(alloc);
    out.extend_from_slice(&FRONT)?;
    begin(&mut out, object_types::RESPONSE, true, &[1])?;
    write_error(&mut out, number)?;
    finish(&mut out, object_types::RESPONSE)?;
    Ok(out)
}
