ghost use Rattle.std.specs.Prelude.{◌≡◌, ◌⊎◌, ◌↔◌, ◌+◌, ◌-◌, ◌^◌, ◌<◌, ◌≤◌, [], List, ℕ, map, min, length, Contains, IfOk, IfSome, OnOk, OnErr, IsErr, IsTrue, IsErrOf, Some, None, encode_utf8_all};
ghost use Rattle.host_edge.specs.Causes.{HasCause};
ghost use Rattle.std.specs.declared.option.Option.{Option};
ghost use Rattle.host_edge.specs.MemDisks.{DiskState, image_of, read_of, image_since};
ghost use Rattle.std.proofs.Common.{refl};
ghost use Rattle.document_store.specs.Causes.{TakesOver, Accounts};
ghost use Rattle.document_store.specs.Disks.{SameBytes};
ghost use Rattle.document_store.specs.Names.{AreAscending};
ghost use Rattle.document_store.specs.Shelves.{Under, Nothing, Stands, Lent, Shelf, put, IsPublished, IsStanding, IsLent, ArePublished, Lends};
ghost use Rattle.document_store.specs.MemStores.{MemLent, StoreState, SameMaking, name_of, content_of, shelf_of, unfailed, new_disk, IsSameDisk, same_bytes};

use crate::fault::StoreFault;
use crate::lent_disk::LentDisk;
use crate::slot::Slot;
use crate::slots::{lend_under, names_of, put_back, take_from};
use crate::store::Store;
use compact_values::{Names, NoMemory};
use host_edge::{Failed, MemDisk};
use std::alloc::Global;
use std::marker::Model;

/// A store in memory. Its calls with the listed numbers fail, counted from 0 over all that can fail, and no others.
#[derive(Drop)]
pub struct MemStore {
    alloc: Global,
    slots: Vec<Slot>,
    room: usize,
    most: usize,
    calls: u128,
    fail: Vec<u64>,
    faults: u64,
}

impl Model for MemStore {
    ghost use Rattle.document_store.specs.MemStores.{StoreState};

    ghost Value = { StoreState };

    ghost view = { λ s. record { slots = s.slots.items; room = s.room; most = s.most; calls = s.calls; fail = s.fail.items; faults = s.faults } };
}

impl MemStore {
    /// A store without names, whose new disks have this room and take so many calls.
    pub fn new(alloc: Global, room: usize, calls: usize, fail: &[u64]) -> Result<MemStore, NoMemory>
        ensures { IfOk result (λ store. store ≡ record { slots = []; room = room; most = calls; calls = 0; fail = fail.now; faults = 0 }) }
    {
        Ok(MemStore {
            alloc,
            slots: Vec::new(alloc),
            room,
            most: calls,
            calls: 0,
            fail: fail.to_vec(alloc)?,
            faults: 0,
        })
    }

    /// How often it has failed, and how many of its disks had failed when they came back.
    pub fn failures(&self) -> u64
        ensures { result ≡ self.now.faults }
    {
        self.faults
    }
}

// Whether the call of this number is to fail.
fn is_listed(fail: &[u64], number: u128) -> bool
    ensures { IsTrue result ↔ Contains fail.now number }
{
    fail.iter().any(|listed| u128::from(*listed) == number)
}

impl MemStore {
    // Counts a call that can fail, and fails where it is listed.
    fn count_call(&mut self) -> Result<(), Failed>
        ensures listed { IsErr result ↔ Contains self.old.fail self.old.calls }
        ensures counted { self.new.calls ≡ min (self.old.calls + 1) (2 ^ 128 - 1) }
        ensures cause { HasCause self.old.faults self.new.faults result }
        ensures same { SameMaking self.old self.new × (self.new.slots ≡ self.old.slots) }
    {
        let number = self.calls;
        self.calls = self.calls.saturating_add(1);
        if is_listed(&self.fail, number) {
            self.faults = self.faults.saturating_add(1);
            return Err(Failed);
        }
        Ok(())
    }

    // Takes over the faults of a disk that came back.
    fn take_over(&mut self, faults: u64)
        ensures cause { TakesOver faults self.old.faults self.new.faults }
        ensures same { self.new ≡ record self.old { faults = self.new.faults } }
    {
        if faults > 0 {
            self.faults = self.faults.saturating_add(1);
        }
    }
}

impl Store for MemStore {
    type Disk = LentDisk<MemDisk, ()>;

    ghost shelf = { λ s. Some (shelf_of s.slots) };

    ghost anew = { λ l. record { disk = l.disk; place = l.place; faults = 0 } };

    ghost left_inside = { λ s t name u. (u ≡ shelf_of s.slots name) ⊎ (u ≡ shelf_of t.slots name) };

    ghost faults = { λ s. s.faults };

    ghost same_disk = { λ l. same_bytes l.disk l.place l.faults 0 };

    ghost has_not_failed = { λ l. refl };

    fn names(&mut self, alloc: Global) -> Result<Names, StoreFault>
        ensures all { IfOk result (λ names. ArePublished (shelf_of self.old.slots) (map encode_utf8_all names)) }
        ensures ascending { IfOk result (λ names. AreAscending (map encode_utf8_all names)) }
        ensures same { ◌≡◌ {A = Option (Shelf MemLent)} (Some (shelf_of self.new.slots)) (Some (shelf_of self.old.slots)) }
        ensures cause { Accounts 0 self.old.faults self.new.faults result }
        ensures listed { IsErrOf result StoreFault.Failed ↔ Contains self.old.fail self.old.calls }
        ensures counted { self.new.calls ≡ min (self.old.calls + 1) (2 ^ 128 - 1) }
        ensures making { SameMaking self.old self.new }
    {
        self.count_call()?;
        Ok(names_of(alloc, &self.slots)?)
    }

    fn fetch(&mut self, name: &str) -> Result<LentDisk<MemDisk, ()>, StoreFault>
        requires standing { IsStanding (shelf_of self.old.slots name.now) }
        ensures lent { IfOk result (λ disk. Lends name.now (Some (shelf_of self.old.slots)) (Some (shelf_of self.new.slots)) disk) }
        ensures refused { OnErr result (◌≡◌ {A = Option (Shelf MemLent)} (Some (shelf_of self.new.slots)) (Some (shelf_of self.old.slots))) }
        ensures unfailed { IfOk result (λ disk. disk.faults ≡ 0) }
        ensures cause { Accounts 0 self.old.faults self.new.faults result }
        ensures listed { IsErrOf result StoreFault.Failed ↔ Contains self.old.fail self.old.calls }
        ensures counted { self.new.calls ≡ min (self.old.calls + 1) (2 ^ 128 - 1) }
        ensures making { SameMaking self.old self.new }
    {
        self.count_call()?;
        Ok(LentDisk::new(take_from(&mut self.slots, name), ()))
    }

    fn begin(&mut self, alloc: Global) -> Result<LentDisk<MemDisk, ()>, StoreFault>
        ensures empty { IfOk result (λ disk. (c : List ℕ) → image_of disk.disk.kept.events c → c ≡ []) }
        ensures reads { IfOk result (λ disk. read_of disk.disk.kept.events ≡ []) }
        ensures unfailed { IfOk result (λ disk. disk.faults ≡ 0) }
        ensures same { ◌≡◌ {A = Option (Shelf MemLent)} (Some (shelf_of self.new.slots)) (Some (shelf_of self.old.slots)) }
        ensures cause { Accounts 0 self.old.faults self.new.faults result }
        ensures begun { IfOk result (λ disk. disk ≡ unfailed (new_disk self.old.room self.old.most)) }
        ensures listed { IsErrOf result StoreFault.Failed ↔ Contains self.old.fail self.old.calls }
        ensures counted { self.new.calls ≡ min (self.old.calls + 1) (2 ^ 128 - 1) }
        ensures making { SameMaking self.old self.new }
    {
        self.count_call()?;
        let disk = MemDisk::new(alloc, self.room, self.most, &[])?;
        Ok(LentDisk::new(disk, ()))
    }

    fn publish(
        &mut self,
        name: &str,
        disk: LentDisk<MemDisk, ()>,
    ) -> Result<LentDisk<MemDisk, ()>, StoreFault>
        requires free { ¬ (IsLent (shelf_of self.old.slots name.now)) }
        ensures named { OnOk result (◌≡◌ {A = Option (Shelf MemLent)} (Some (shelf_of self.new.slots)) (Some (put name.now Lent (shelf_of self.old.slots)))) }
        ensures lent { IfOk result (λ on. IsSameDisk disk on) }
        ensures failures { IfOk result (λ on. on.faults ≡ disk.faults) }
        ensures refused { OnErr result ((◌≡◌ {A = Option (Shelf MemLent)} (Some (shelf_of self.new.slots)) (Some (shelf_of self.old.slots)))
            ⊎ (◌≡◌ {A = Option (Shelf MemLent)} (Some (shelf_of self.new.slots)) (Some (put name.now (Stands (unfailed disk.disk)) (shelf_of self.old.slots))))) }
        ensures crash { (other : List ℕ) (u : Under MemLent) → (u ≡ shelf_of self.old.slots other) ⊎ (u ≡ shelf_of self.new.slots other)
            → (u ≡ shelf_of self.old.slots other) ⊎ ((other ≡ name.now) × (u ≡ Lent)) }
        ensures cause { Accounts disk.faults self.old.faults self.new.faults result }
        ensures on { IfOk result (λ on. on ≡ disk) }
        ensures stays { OnErr result (self.new.slots ≡ self.old.slots) }
        ensures listed { IsErrOf result StoreFault.Failed ↔ Contains self.old.fail self.old.calls }
        ensures counted { self.new.calls ≡ min (self.old.calls + 1) (2 ^ 128 - 1) }
        ensures making { SameMaking self.old self.new }
    {
        self.count_call()?;
        let alloc = self.alloc;
        match lend_under(alloc, &mut self.slots, name) {
            Ok(()) => Ok(disk),
            Err(NoMemory) => {
                self.take_over(disk.failures());
                Err(StoreFault::NoMemory)
            }
        }
    }

    fn give_back(&mut self, name: &str, disk: LentDisk<MemDisk, ()>)
        requires lent { IsLent (shelf_of self.old.slots name.now) }
        ensures standing { ◌≡◌ {A = Option (Shelf MemLent)} (Some (shelf_of self.new.slots)) (Some (put name.now (Stands (unfailed disk.disk)) (shelf_of self.old.slots))) }
        ensures cause { TakesOver disk.faults self.old.faults self.new.faults }
        ensures making { SameMaking self.old self.new × (self.new.calls ≡ self.old.calls) }
    {
        self.take_over(disk.failures());
        put_back(&mut self.slots, name, disk.into_disk());
    }

    fn discard(&mut self, disk: LentDisk<MemDisk, ()>)
        ensures same { ◌≡◌ {A = Option (Shelf MemLent)} (Some (shelf_of self.new.slots)) (Some (shelf_of self.old.slots)) }
        ensures cause { TakesOver disk.faults self.old.faults self.new.faults }
        ensures making { SameMaking self.old self.new × (self.new.calls ≡ self.old.calls) }
    {
        self.take_over(disk.failures());
    }
}
