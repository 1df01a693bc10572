// Lists that tests make.
use compact_values::{NoMemory, Seq};
use std::alloc::Global;

/// A list of one item.
pub fn list_of<T: Drop>(alloc: Global, item: T) -> Result<Seq<T>, NoMemory> {
    let mut list = Seq::new(alloc);
    list.push(item)?;
    Ok(list)
}
