// The bytes that came and are not used yet.
ghost use Rattle.std.specs.Prelude.{◌≡◌, ◌≤◌, ◌++◌, OnOk, length, drop};

use compact_values::{NoMemory, Octets, Seq};
use std::alloc::Global;

// Drops what stands before this place. What is left is moved only where something was dropped.
fn drop_front(alloc: Global, input: &mut Octets, from: usize) -> Result<(), NoMemory>
    requires { from ≤ length input.old }
    ensures { OnOk result (input.new ≡ drop from input.old) }
{
    if from > 0 {
        let mut rest = Seq::new(alloc);
        rest.extend_from_slice(&input.as_slice()[from..])?;
        *input = rest;
    }
    Ok(())
}

// Drops what stands before this place, and adds the piece at the end.
pub(crate) fn add_piece(
    alloc: Global,
    input: &mut Octets,
    from: usize,
    piece: &[u8],
) -> Result<(), NoMemory>
    requires { from ≤ length input.old }
    ensures { OnOk result (input.new ≡ drop from input.old ++ piece.now) }
{
    drop_front(alloc, input, from)?;
    input.extend_from_slice(piece)
}
