// What a crash may leave of a disk in memory, taken from the record of its calls.
ghost use Rattle.std.specs.Prelude.{◌≡◌, ◌+◌, ◌<◌, ◌≤◌, ◌^◌, length, IfOk, OnOk};
ghost use Rattle.host_edge.specs.Disks.{written, Torn};
ghost use Rattle.host_edge.specs.MemDisks.{Wrote, Leaves, events, spent, event_of, size_of, read_after, image_of};

use crate::disk_call::DiskCall;
use crate::mem_disk::{put, put_zeros};
use compact_values::NoMemory;
use std::alloc::Global;

// One image that a crash after these calls may leave: of the write at each place of the list the first bytes are there,
// as many as `landed` says at that place.
pub(crate) fn image_after(
    alloc: Global,
    calls: &[DiskCall],
    log: &[u8],
    landed: &[usize],
) -> Result<Vec<u8>, NoMemory>
    requires { spent calls.now ≤ length log.now }
    ensures { IfOk result (λ image. image_of (events calls.now log.now) image.items) }
{
    let mut seen = Vec::new(alloc);
    let mut image = Vec::new(alloc);
    let mut bytes = log;
    let mut counts = landed;
    for call in calls {
        let size = size_of(*call);
        replay(
            *call,
            &bytes[..size],
            first_of(counts),
            &mut seen,
            &mut image,
        )?;
        bytes = &bytes[size..];
        counts = others_of(counts);
    }
    Ok(image)
}

fn size_of(call: DiskCall) -> usize
    ensures { result ≡ size_of call }
{
    match call {
        DiskCall::Write { size, .. } => size,
        _ => 0,
    }
}

fn first_of(counts: &[usize]) -> usize {
    match counts {
        [count, ..] => *count,
        [] => 0,
    }
}

fn others_of<'a>(counts: &'a [usize]) -> &'a [usize] {
    match counts {
        [_, more @ ..] => more,
        [] => counts,
    }
}

// One call more: what a read gives after it, and an image.
fn replay(
    call: DiskCall,
    new: &[u8],
    landed: usize,
    seen: &mut Vec<u8>,
    image: &mut Vec<u8>,
) -> Result<(), NoMemory>
    ensures read { OnOk result (seen.new.items ≡ read_after (event_of call new.now) seen.old.items) }
    ensures left { OnOk result (Leaves (event_of call new.now) seen.old.items image.old.items image.new.items) }
{
    match call {
        DiskCall::Asked => Ok(()),
        DiskCall::Write { place, done, .. } => replay_write(place, new, done, landed, seen, image),
        DiskCall::Sync => {
            image.truncate(0);
            image.extend_from_slice(seen)?;
            Ok(())
        }
    }
}

fn replay_write(
    place: u64,
    new: &[u8],
    done: bool,
    landed: usize,
    seen: &mut Vec<u8>,
    image: &mut Vec<u8>,
) -> Result<(), NoMemory>
    ensures read { OnOk result (seen.new.items ≡ read_after (Wrote place new.now done) seen.old.items) }
    ensures left { OnOk result (Torn place new.now image.old.items image.new.items) }
{
    lay_front(image, place, new, landed)?;
    if done {
        return lay(seen, place, new);
    }
    Ok(())
}

// Writes the first bytes alone, or nothing.
#[tactic(auto, using(crate::proofs::CrashImages::front_torn))]
fn lay_front(bytes: &mut Vec<u8>, place: u64, new: &[u8], count: usize) -> Result<(), NoMemory>
    ensures { OnOk result (Torn place new.now bytes.old.items bytes.new.items) }
{
    lay(bytes, place, &new[..count.min(new.len())])
}

// Writes over what is there, and past the end.
fn lay(bytes: &mut Vec<u8>, place: u64, new: &[u8]) -> Result<(), NoMemory>
    ensures { OnOk result (bytes.new.items ≡ written place new.now bytes.old.items) }
{
    if new.is_empty() {
        return Ok(());
    }
    let Some(end) = place.checked_add(new.len() as u64) else {
        return Err(NoMemory);
    };
    put_zeros(bytes, end as usize)?;
    put(bytes.as_mut_slice(), place as usize, new);
    Ok(())
}
