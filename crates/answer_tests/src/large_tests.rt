// The answer to a download of 16 MiB, beside the base64 of the same bytes. What each takes stands in docs/PERFORMANCE.md.
use crate::test_answers::{Became, asked, has_one_each};
use base64::engine::general_purpose::STANDARD;
use compact_values::{NoMemory, Octets};
use envelope_read::{CellWord, Collection, Outcomes};
use envelope_write::write_envelope;
use std::alloc::Global;
use std::test::Fail;

/// The bytes of a Cell with the largest file, and their base64.
const BYTES: usize = 16_777_216;

const CHARACTERS: usize = 22_369_624;

const PIECE: &[u8; 4_096] = &[7; 4_096];

fn cell(alloc: Global) -> Result<Octets, NoMemory> {
    let mut bytes = Octets::new(alloc);
    for _ in 0..BYTES / PIECE.len() {
        bytes.extend_from_slice(PIECE)?;
    }
    Ok(bytes)
}

// What is asked, and the Cell's bytes as its outcome.
fn asked_for(alloc: Global, outcomes: &mut Outcomes) -> Result<Collection, NoMemory> {
    let bytes = cell(alloc)?;
    let became = Became::Cell(bytes.as_slice(), CellWord::Fine);
    asked(alloc, &[("/d.docx", "1", &[("2", became)])], outcomes)
}

#[test]
fn a_large_cell_is_made(rt: HostRuntime) -> Result<(), Fail> {
    let alloc = rt.alloc();
    let mut outcomes = Outcomes::new(alloc);
    let collection = asked_for(alloc, &mut outcomes)?;
    assert!(rt; has_one_each(collection.requests.as_slice(), outcomes.len()));
    Ok(())
}

#[test]
fn a_large_cell_is_made_and_encoded(rt: HostRuntime) -> Result<(), Fail> {
    let alloc = rt.alloc();
    let mut outcomes = Outcomes::new(alloc);
    let collection = asked_for(alloc, &mut outcomes)?;
    assert!(rt; has_one_each(collection.requests.as_slice(), outcomes.len()));
    let text = STANDARD.encode(alloc, cell(alloc)?.as_slice())?;
    assert!(rt; text.len() == CHARACTERS);
    Ok(())
}

#[test]
fn a_large_cell_is_made_twice(rt: HostRuntime) -> Result<(), Fail> {
    let alloc = rt.alloc();
    let mut outcomes = Outcomes::new(alloc);
    let collection = asked_for(alloc, &mut outcomes)?;
    assert!(rt; has_one_each(collection.requests.as_slice(), outcomes.len()));
    assert!(rt; cell(alloc)?.len() == BYTES);
    Ok(())
}

#[test]
fn a_large_answer_is_written(rt: HostRuntime) -> Result<(), Fail> {
    let alloc = rt.alloc();
    let mut outcomes = Outcomes::new(alloc);
    let collection = asked_for(alloc, &mut outcomes)?;
    assert!(rt; has_one_each(collection.requests.as_slice(), outcomes.len()));
    if has_one_each(collection.requests.as_slice(), outcomes.len()) {
        let text = write_envelope(alloc, &collection, &outcomes)?;
        assert!(rt; text.len() > CHARACTERS);
    }
    Ok(())
}
