// The slots of a store in memory, of which the first with a name counts.
ghost use Rattle.std.specs.Prelude.{◌≡◌, ◌⊎◌, ◌<◌, List, ℕ, map, length, IfOk, OnOk, OnErr, Some, None, encode_utf8_all};
ghost use Rattle.document_store.specs.Names.{AreAscending};
ghost use Rattle.document_store.specs.Shelves.{Stands, Lent, put, IsPublished, IsStanding, IsLent, ArePublished};
ghost use Rattle.document_store.specs.MemStores.{content_of, filled, shelf_of, slot_of, unfailed};

use crate::name_list::{add_name, no_names};
use crate::slot::Slot;
use compact_values::{Copied, Names, NoMemory, Seq, Text};
use host_edge::MemDisk;
use std::alloc::Global;

// The first slot with the name.
fn slot_of(slots: &[Slot], name: &str) -> Option<usize>
    ensures { result ≡ slot_of name.now slots.now }
{
    slots.iter().position(|slot| slot.name.as_str() == name)
}

// Takes out the disk that stands under the name.
pub(crate) fn take_from(slots: &mut Vec<Slot>, name: &str) -> MemDisk
    requires { IsStanding (shelf_of slots.old.items name.now) }
    ensures stood { shelf_of slots.old.items name.now ≡ Stands (unfailed result) }
    ensures lent { shelf_of slots.new.items ≡ put name.now Lent (shelf_of slots.old.items) }
{
    let Some(at) = slot_of(slots, name) else {
        unreachable!();
    };
    take_disk(&mut slots[at])
}

fn take_disk(slot: &mut Slot) -> MemDisk
    requires { IsStanding (content_of slot.old.disk) }
    ensures disk { slot.old.disk ≡ Some result }
    ensures lent { slot.new ≡ filled slot.old None }
{
    match slot.disk.take() {
        Some(disk) => disk,
        None => unreachable!(),
    }
}

// Puts a disk under the lent name.
pub(crate) fn put_back(slots: &mut Vec<Slot>, name: &str, disk: MemDisk)
    requires { IsLent (shelf_of slots.old.items name.now) }
    ensures { shelf_of slots.new.items ≡ put name.now (Stands (unfailed disk)) (shelf_of slots.old.items) }
{
    let Some(at) = slot_of(slots, name) else {
        unreachable!();
    };
    slots[at].disk = Some(disk);
}

// Lends what is under the name, which is published then. A disk that stood there is gone.
pub(crate) fn lend_under(alloc: Global, slots: &mut Vec<Slot>, name: &str) -> Result<(), NoMemory>
    ensures lent { OnOk result (shelf_of slots.new.items ≡ put name.now Lent (shelf_of slots.old.items)) }
    ensures refused { OnErr result (slots.new.items ≡ slots.old.items) }
{
    if let Some(at) = slot_of(slots, name) {
        slots[at].disk = None;
        return Ok(());
    }
    let name = Text::from_str(alloc, name)?;
    slots.push(Slot { name, disk: None })?;
    Ok(())
}

// The names of all slots.
pub(crate) fn names_of(alloc: Global, slots: &[Slot]) -> Result<Names, NoMemory>
    ensures all { IfOk result (λ names. ArePublished (shelf_of slots.now) (map encode_utf8_all names)) }
    ensures ascending { IfOk result (λ names. AreAscending (map encode_utf8_all names)) }
{
    let mut names = no_names(alloc);
    for slot in slots {
        add_name(&mut names, slot.name.copied(alloc)?)?;
    }
    Ok(Seq::from_vec(names))
}
