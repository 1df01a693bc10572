// The one list type of the plain data, and what its items must be able to do.
ghost use Rattle.std.specs.Prelude.{◌≡◌, ℕ, ◌+◌, ◌<◌, ◌≤◌, List, [], ◌∷◌, ◌++◌, length, take, IsTrue, ◌↔◌, IfOk, OnOk, OnErr, slice_get, OnSome};
ghost use Rattle.std.specs.Option.{option_copied};

use crate::fault::NoMemory;
use crate::guid::Guid;
use std::alloc::Global;
use std::marker::Model;

/// A `Vec` that contracts see as the list of its items.
#[derive(Debug, Drop)]
pub struct Seq<T> {
    items: Vec<T>,
}

/// A list of bytes.
pub type Octets = Seq<u8>;

impl<T> Model for Seq<T> {
    ghost use Rattle.std.specs.Prelude.{List};
    ghost use Rattle.std.specs.Coded.{coded_list};

    ghost Value = { List T };

    ghost coded = { coded_list T.code };

    ghost view = { λ s. s.items.items };
}

/// A type whose values can be compared exactly.
pub trait Same {
    /// Whether the two are equal.
    fn same(&self, other: &Self) -> bool
        ensures { IsTrue result ↔ (self.now ≡ other.now) };

    /// Whether the two lists are equal. A type whose values lie in memory as bare numbers compares them as one run.
    fn all_same(a: &[Self], b: &[Self]) -> bool
        ensures { IsTrue result ↔ (a.now ≡ b.now) }
    {
        if a.len() != b.len() {
            return false;
        }
        for i in 0..a.len() {
            if !a[i].same(&b[i]) {
                return false;
            }
        }
        true
    }
}

/// A type whose values can be copied exactly, where memory allows it.
pub trait Copied: Drop {
    /// An equal value of its own.
    fn copied(&self, alloc: Global) -> Result<Self, NoMemory>
        ensures { IfOk result (λ it. it ≡ self.now) };

    /// A list with equal values. A type whose values lie in memory as bare numbers copies them as one run.
    fn all_copied(alloc: Global, items: &[Self]) -> Result<Vec<Self>, NoMemory>
        ensures { IfOk result (λ all. all.items ≡ items.now) }
    {
        let Ok(mut all) = Vec::with_capacity(alloc, items.len()) else {
            return Err(NoMemory);
        };
        for item in items {
            let Ok(()) = all.push(item.copied(alloc)?) else {
                return Err(NoMemory);
            };
        }
        Ok(all)
    }
}

impl<T> Seq<T> {
    pub fn new(alloc: Global) -> Seq<T>
        ensures { result ≡ [] }
    {
        Seq {
            items: Vec::new(alloc),
        }
    }

    pub fn from_vec(items: Vec<T>) -> Seq<T>
        ensures { result ≡ items.items }
    {
        Seq { items }
    }

    pub fn into_vec(self) -> Vec<T>
        ensures { result.items ≡ self }
    {
        let Seq { items } = self;
        items
    }

    pub fn as_slice(&self) -> &[T]
        ensures { result.now ≡ self.now }
    {
        self.items.as_slice()
    }

    pub fn len(&self) -> usize
        ensures { result ≡ length self.now }
    {
        self.items.len()
    }

    pub fn is_empty(&self) -> bool
        ensures { IsTrue result ↔ (self.now ≡ []) }
    {
        self.items.is_empty()
    }
}

impl<T: Drop> Seq<T> {
    /// Moves all of the items to the end, or drops them without memory.
    pub fn append(&mut self, more: Seq<T>) -> Result<(), NoMemory>
        ensures ok { OnOk result (self.new ≡ self.old ++ more) }
        ensures err { OnErr result (self.new ≡ self.old) }
    {
        let Seq { mut items } = more;
        match self.items.append(&mut items) {
            Ok(()) => Ok(()),
            Err(_) => Err(NoMemory),
        }
    }

    /// Adds the item at the end. Without memory it is dropped.
    pub fn push(&mut self, item: T) -> Result<(), NoMemory>
        ensures ok { OnOk result (self.new ≡ self.old ++ item ∷ []) }
        ensures err { OnErr result (self.new ≡ self.old) }
    {
        match self.items.push(item) {
            Ok(()) => Ok(()),
            Err(_) => Err(NoMemory),
        }
    }
}

impl<T: Drop> Seq<T> {
    /// Drops all but the first `len` items. It takes no memory.
    pub fn truncate(&mut self, len: usize)
        ensures { self.new ≡ take len self.old }
    {
        self.items.truncate(len);
    }
}

impl<T: Copy> Seq<T> {
    /// Adds all of the items at the end, or none of them.
    pub fn extend_from_slice(&mut self, items: &[T]) -> Result<(), NoMemory>
        ensures ok { OnOk result (self.new ≡ self.old ++ items.now) }
        ensures err { OnErr result (self.new ≡ self.old) }
    {
        match self.items.extend_from_slice(items) {
            Ok(()) => Ok(()),
            Err(_) => Err(NoMemory),
        }
    }
}

impl<T: PartialEq> PartialEq for Seq<T> {
    ghost use Rattle.std.specs.Cmp.Lexicographic.{pointwise, lists_per};

    ghost eq = { pointwise T.eq };

    ghost laws = { lists_per T.laws };

    fn eq(&self, other: &Seq<T>) -> bool {
        self.items.as_slice() == other.items.as_slice()
    }
}

impl<T: Eq> Eq for Seq<T> {
    ghost use Rattle.std.specs.Cmp.Lexicographic.{lists_equiv};

    ghost laws = { lists_equiv T.Eq.laws };
}

impl<T: Same> Same for Seq<T> {
    fn same(&self, other: &Seq<T>) -> bool {
        T::all_same(self.items.as_slice(), other.items.as_slice())
    }
}

impl<T: Copied> Seq<T> {
    /// A list with copies of these.
    pub fn copied_from(alloc: Global, items: &[T]) -> Result<Seq<T>, NoMemory>
        ensures { IfOk result (λ all. all ≡ items.now) }
    {
        Ok(Seq {
            items: T::all_copied(alloc, items)?,
        })
    }
}

impl<T: Copied> Copied for Seq<T> {
    fn copied(&self, alloc: Global) -> Result<Seq<T>, NoMemory> {
        Ok(Seq {
            items: T::all_copied(alloc, self.items.as_slice())?,
        })
    }
}

impl Same for u8 {
    fn same(&self, other: &u8) -> bool {
        *self == *other
    }

    fn all_same(a: &[u8], b: &[u8]) -> bool {
        a == b
    }
}

impl Same for Guid {
    fn same(&self, other: &Guid) -> bool {
        *self == *other
    }
}

impl Copied for u8 {
    fn copied(&self, _alloc: Global) -> Result<u8, NoMemory> {
        Ok(*self)
    }

    fn all_copied(alloc: Global, items: &[u8]) -> Result<Vec<u8>, NoMemory> {
        let mut all = Vec::new(alloc);
        match all.extend_from_slice(items) {
            Ok(()) => Ok(all),
            Err(_) => Err(NoMemory),
        }
    }
}

impl Copied for Guid {
    fn copied(&self, _alloc: Global) -> Result<Guid, NoMemory> {
        Ok(*self)
    }
}
