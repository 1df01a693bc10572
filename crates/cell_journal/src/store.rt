// The one way in which a journal changes its disk.
ghost use Rattle.std.specs.Prelude.{◌≡◌, OnOk};
ghost use Rattle.std.specs.Option.{option_map};
ghost use Rattle.host_edge.specs.Causes.{HasCause};
ghost use Rattle.host_edge.specs.Disks.{written, Torn, Follows, Only};
ghost use Rattle.cell_journal.specs.Stores.{HasPart, Adds};

use host_edge::{Disk, Failed};

// Writes the bytes from the place on, and syncs. Once it is done a crash leaves just what was read before, with these
// bytes over it. A crash meanwhile leaves some part of them, and so does a failure.
#[tactic(auto, using(crate::proofs::Stores::write_adds, crate::proofs::Stores::sync_adds, crate::proofs::Stores::synced_left))]
pub(crate) fn store<D: Disk>(disk: &mut D, place: u64, bytes: &[u8]) -> Result<(), Failed>
    ensures durable { OnOk result (Only (option_map (written place bytes.now) (D.seen disk.old)) (D.may_leave disk.new)) }
    ensures part { Follows (Torn place bytes.now) (D.may_leave disk.old) (D.may_leave disk.new) }
    ensures time { Adds D.moment D.left_since disk.old disk.new (HasPart place bytes.now (D.may_leave disk.old)) }
    ensures cause { HasCause (D.faults disk.old) (D.faults disk.new) result }
{
    disk.write_at(place, bytes)?;
    disk.sync()?;
    Ok(())
}
