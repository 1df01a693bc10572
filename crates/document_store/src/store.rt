// A store of disks under names, as what works with documents sees it.
ghost use Rattle.std.specs.Prelude.{◌≡◌, ◌⊎◌, List, [], ℕ, map, IfOk, IfSome, OnOk, OnErr, Some, encode_utf8_all};
ghost use Rattle.std.specs.declared.option.Option.{Option};
ghost use Rattle.std.specs.Option.{option_map};
ghost use Rattle.document_store.specs.Causes.{TakesOver, Accounts};
ghost use Rattle.document_store.specs.Disks.{SameBytes};
ghost use Rattle.document_store.specs.Shelves.{Under, Stands, Lent, Shelf, put, IsStanding, IsLent, ArePublished, Lends};
ghost use Rattle.document_store.specs.Names.{AreAscending};

use crate::fault::StoreFault;
use compact_values::Names;
use host_edge::Disk;
use std::alloc::Global;

/// Disks under names. A disk is lent under its name and given back; a new one is begun without a name, and gets it when
/// it is published.
pub trait Store {
    /// What is lent.
    type Disk: Disk + Drop;

    /// What is under each name, where it is told.
    ghost shelf: { Self → Option (Shelf Self.Disk) };

    /// The same disk, whose count of faults begins anew.
    ghost anew: { Self.Disk → Self.Disk };

    /// What a crash inside a publish, which led from the one state to the other, may leave under a name.
    ghost left_inside: { Self → Self → List ℕ → Under Self.Disk → Type 0 };

    /// How often the store has failed, and how many of its disks had failed when they were given back.
    ghost faults: { Self → ℕ };

    /// All published names, lent ones too, in ascending order of their bytes.
    fn names(&mut self, alloc: Global) -> Result<Names, StoreFault>
        ensures all { IfOk result (λ names. IfSome (shelf self.old) (λ under. ArePublished under (map encode_utf8_all names))) }
        ensures ascending { IfOk result (λ names. AreAscending (map encode_utf8_all names)) }
        ensures same { shelf self.new ≡ shelf self.old }
        ensures cause { Accounts 0 (faults self.old) (faults self.new) result };

    /// Lends the disk that stands under a published name. It has not failed since it was given back.
    fn fetch(&mut self, name: &str) -> Result<Self::Disk, StoreFault>
        requires standing { IfSome (shelf self.old) (λ under. IsStanding (under name.now)) }
        ensures lent { IfOk result (λ disk. Lends name.now (shelf self.old) (shelf self.new) disk) }
        ensures refused { OnErr result (shelf self.new ≡ shelf self.old) }
        ensures unfailed { IfOk result (λ disk. Self.Disk.faults disk ≡ 0) }
        ensures cause { Accounts 0 (faults self.old) (faults self.new) result };

    /// Lends a new disk that has no name. It is empty, whatever a crash leaves of it, and has not failed.
    fn begin(&mut self, alloc: Global) -> Result<Self::Disk, StoreFault>
        ensures empty { IfOk result (λ disk. (c : List ℕ) → Self.Disk.may_leave disk c → c ≡ []) }
        ensures reads { IfOk result (λ disk. IfSome (Self.Disk.seen disk) (λ bytes. bytes ≡ [])) }
        ensures unfailed { IfOk result (λ disk. Self.Disk.faults disk ≡ 0) }
        ensures same { shelf self.new ≡ shelf self.old }
        ensures cause { Accounts 0 (faults self.old) (faults self.new) result };

    /// Gives the name to a disk that has none, and lends it on. The disk that stood under the name is gone. Where it is
    /// refused, the new disk is gone, or it stands under the name.
    fn publish(&mut self, name: &str, disk: Self::Disk) -> Result<Self::Disk, StoreFault>
        requires free { IfSome (shelf self.old) (λ under. ¬ (IsLent (under name.now))) }
        ensures named { OnOk result (shelf self.new ≡ option_map (put name.now Lent) (shelf self.old)) }
        ensures lent { IfOk result (λ on. SameBytes Self.Disk.seen Self.Disk.may_leave Self.Disk.moment Self.Disk.left_since disk on) }
        ensures failures { IfOk result (λ on. Self.Disk.faults on ≡ Self.Disk.faults disk) }
        ensures refused { OnErr result ((shelf self.new ≡ shelf self.old)
            ⊎ (shelf self.new ≡ option_map (put name.now (Stands (anew disk))) (shelf self.old))) }

        // A crash inside leaves each name as it was, or this name with the disk that is lent on.
        ensures crash { (other : List ℕ) (u : Under Self.Disk) → left_inside self.old self.new other u
            → IfSome (shelf self.old) (λ under. (u ≡ under other) ⊎ ((other ≡ name.now) × (u ≡ Lent))) }

        ensures cause { Accounts (Self.Disk.faults disk) (faults self.old) (faults self.new) result };

    /// Puts the disk back under its name, from which it was lent. Its count of faults begins anew, and the store's rises
    /// where it was not 0.
    fn give_back(&mut self, name: &str, disk: Self::Disk)
        requires lent { IfSome (shelf self.old) (λ under. IsLent (under name.now)) }
        ensures standing { shelf self.new ≡ option_map (put name.now (Stands (anew disk))) (shelf self.old) }
        ensures cause { TakesOver (Self.Disk.faults disk) (faults self.old) (faults self.new) };

    /// Ends a disk that has no name. The store's count of faults rises where the disk's was not 0.
    fn discard(&mut self, disk: Self::Disk)
        ensures same { shelf self.new ≡ shelf self.old }
        ensures cause { TakesOver (Self.Disk.faults disk) (faults self.old) (faults self.new) };

    /// The disk that is given back is as it was, but for its count.
    ghost same_disk: { (disk : Self.Disk) → SameBytes Self.Disk.seen Self.Disk.may_leave Self.Disk.moment Self.Disk.left_since disk (anew disk) };

    /// Its count is 0.
    ghost has_not_failed: { (disk : Self.Disk) → Self.Disk.faults (anew disk) ≡ 0 };
}
