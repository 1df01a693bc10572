// The store in memory, and the disks that it lends. What it does with names its contract tells whole; the tests over a
// folder go through it.
use crate::lent_disk::LentDisk;
use crate::{MemStore, Store, is_name};
use host_edge::{Disk, MemDisk};
use std::test::Fail;

// A lent disk goes to other threads.
fn can_be_sent<T: Send>(_value: &T) -> bool {
    true
}

#[test]
fn a_lent_disk_counts_from_when_it_is_lent(rt: HostRuntime) -> Result<(), Fail> {
    let mut lent = LentDisk::new(MemDisk::new(rt.alloc(), 8, 8, &[0, 2])?, ());
    assert!(rt; can_be_sent(&lent));
    assert!(rt; lent.length().is_err());
    assert!(rt; lent.sync().is_ok());
    assert_eq!(rt; lent.failures(), 1);
    let mut again = LentDisk::new(lent.into_disk(), ());
    assert_eq!(rt; again.failures(), 0);
    assert!(rt; again.sync().is_err());
    assert_eq!(rt; again.failures(), 1);
    assert_eq!(rt; again.disk().failures(), 2);
    Ok(())
}

#[test]
fn a_store_fails_at_the_listed_calls(rt: HostRuntime) -> Result<(), Fail> {
    let alloc = rt.alloc();
    let mut store = MemStore::new(alloc, 8, 8, &[0, 2])?;
    assert!(rt; store.begin(alloc).is_err());
    let mut disk = store.begin(alloc)?;
    assert!(rt; disk.write_at(0, b"a").is_ok());
    assert!(rt; store.names(alloc).is_err());
    store.discard(disk);
    assert!(rt; store.names(alloc)?.is_empty());
    assert_eq!(rt; store.failures(), 2);
    Ok(())
}

#[test]
fn names_of_documents(rt: HostRuntime) -> Result<(), Fail> {
    let alloc = rt.alloc();
    let mut long = String::new(alloc);
    for _ in 0..50 {
        long.push_str("é")?;
    }
    assert!(rt; is_name("a.docx") && is_name("a b-c.") && is_name(long.as_str()));
    long.push_str("a")?;
    assert!(rt; !is_name(long.as_str()) && !is_name(""));
    assert!(rt; !is_name(".a") && !is_name("-a") && !is_name("a/b") && !is_name("a\\b"));
    assert!(rt; !is_name("a\n") && !is_name("a\x7F"));
    Ok(())
}
