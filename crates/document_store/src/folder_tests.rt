// The store over a folder, with real files.
use crate::{FolderFault, FolderStore, Store, StoreFault};
use compact_values::Names;
use host_edge::Disk;
use std::alloc::Global;
use std::fs;
use std::test::Fail;

// Whether these are the names, in this order.
fn are(names: &Names, expected: &[&str]) -> bool {
    let names = names.as_slice();
    names.len() == expected.len() && (0..names.len()).all(|i| names[i].as_str() == expected[i])
}

// Puts a new disk with these bytes under the name.
fn add(alloc: Global, store: &mut FolderStore, name: &str, bytes: &[u8]) -> bool {
    let Ok(mut disk) = store.begin(alloc) else {
        return false;
    };
    if disk.write_at(0, bytes).is_err() {
        return false;
    }
    match store.publish(name, disk) {
        Ok(disk) => {
            store.give_back(name, disk);
            true
        }
        Err(_) => false,
    }
}

fn begins_with<D: Disk>(disk: &mut D, bytes: &[u8]) -> bool {
    let mut into = [0u8; 2];
    disk.read_at(0, &mut into) == Ok(2) && into.as_slice() == bytes
}

const KEPT: &str = "document_store_kept_test";

#[test]
fn a_document_outlives_its_store(rt: HostRuntime) -> Result<(), Fail> {
    let alloc = rt.alloc();
    let _ = fs::remove_dir_all(&rt, KEPT);
    let mut store = FolderStore::in_folder(rt.clone()?, KEPT);
    assert!(rt; add(alloc, &mut store, "b.docx", b"bb"));
    assert!(rt; add(alloc, &mut store, "a.docx", b"aa"));
    assert!(rt; add(alloc, &mut store, "b.docx", b"cc"));
    let unnamed = store.begin(alloc)?;
    store.discard(unnamed);
    let left = store.begin(alloc)?;
    drop(left);
    drop(store);
    fs::write(&rt, "document_store_kept_test/readme.txt", b"x")?;
    fs::write(&rt, "document_store_kept_test/.c.cells", b"x")?;
    fs::create_dir(&rt, "document_store_kept_test/d.cells")?;
    let mut store = FolderStore::in_folder(rt.clone()?, KEPT);
    assert!(rt; are(&store.names(alloc)?, &["a.docx", "b.docx"]));
    assert!(rt; begins_with(&mut store.fetch("a.docx")?, b"aa"));
    assert!(rt; begins_with(&mut store.fetch("b.docx")?, b"cc"));
    assert_eq!(rt; store.failures(), 0);
    fs::remove_dir_all(&rt, KEPT)?;
    Ok(())
}

const TAKEN: &str = "document_store_taken_test";

#[test]
fn a_folder_is_one_program_s(rt: HostRuntime) -> Result<(), Fail> {
    let alloc = rt.alloc();
    let _ = fs::remove_dir_all(&rt, TAKEN);
    let mut store = FolderStore::in_folder(rt.clone()?, TAKEN);
    assert!(rt; are(&store.names(alloc)?, &[]));
    let mut second = FolderStore::in_folder(rt.clone()?, TAKEN);
    assert!(rt; matches!(second.names(alloc), Err(StoreFault::Failed)));
    assert!(rt; matches!(second.last_fault(), Some(FolderFault::InUse)));
    assert!(rt; second.begin(alloc).is_err());
    assert_eq!(rt; second.failures(), 2);
    drop(store);
    assert!(rt; are(&second.names(alloc)?, &[]));
    fs::remove_dir_all(&rt, TAKEN)?;
    Ok(())
}

const REFUSED: &str = "document_store_refused_test";

#[test]
fn what_is_no_name_or_has_no_folder_is_refused(rt: HostRuntime) -> Result<(), Fail> {
    let alloc = rt.alloc();
    let _ = fs::remove_dir_all(&rt, REFUSED);
    let mut store = FolderStore::in_folder(rt.clone()?, REFUSED);
    assert!(rt; !add(alloc, &mut store, "../a", b"aa"));
    assert!(rt; matches!(store.last_fault(), Some(FolderFault::NoName)));
    assert!(rt; store.fetch("a").is_err());
    assert_eq!(rt; store.failures(), 2);
    assert!(rt; !fs::exists(&rt, "document_store_refused_test/.begun-0")?);
    fs::remove_dir_all(&rt, REFUSED)?;
    let mut lost = FolderStore::in_folder(rt.clone()?, "document_store_no_folder/cells");
    assert!(rt; lost.names(alloc).is_err());
    assert_eq!(rt; lost.failures(), 1);
    Ok(())
}
