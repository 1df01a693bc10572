// The two disks, and what a crash may leave of the one in memory.
use crate::open_file::folder_of;
use crate::{Disk, DiskCall, FileDisk, MemDisk, OpenFault};
use std::alloc::Global;
use std::fs;
use std::fs::OpenOptions;
use std::test::Fail;

const FOLDER: &str = "host_edge_file_disk_test";

const PATH: &str = "host_edge_file_disk_test/a.cells";

// Whether the disk has these bytes and no others.
fn holds<D: Disk>(disk: &mut D, bytes: &[u8]) -> bool {
    let mut into = [9u8; 8];
    disk.length() == Ok(bytes.len() as u64)
        && disk.read_at(0, &mut into) == Ok(bytes.len())
        && into.starts_with(bytes)
}

fn is_in_use(opened: Result<FileDisk, OpenFault>) -> bool {
    matches!(opened, Err(OpenFault::InUse))
}

#[test]
fn a_file_holds_what_was_written(rt: HostRuntime) -> Result<(), Fail> {
    let _ = fs::remove_dir_all(&rt, FOLDER);
    fs::create_dir(&rt, FOLDER)?;
    assert!(rt; FileDisk::open(&rt, PATH).is_err());
    let mut disk = FileDisk::create(&rt, PATH)?;
    assert!(rt; disk.write_at(2, b"cde").is_ok());
    assert!(rt; disk.write_at(0, b"ab").is_ok());
    assert!(rt; disk.write_at(9, b"").is_ok());
    assert!(rt; disk.sync().is_ok());
    assert!(rt; holds(&mut disk, b"abcde"));
    let mut into = [9u8; 4];
    assert!(rt; disk.read_at(3, &mut into) == Ok(2));
    assert_eq!(rt; into, [b'd', b'e', 9, 9]);
    fs::remove_dir_all(&rt, FOLDER)?;
    Ok(())
}

const OTHER_FOLDER: &str = "host_edge_open_test";

const OTHER_PATH: &str = "host_edge_open_test/a.cells";

#[test]
fn a_file_is_opened_as_it_is_by_one_at_a_time(rt: HostRuntime) -> Result<(), Fail> {
    let _ = fs::remove_dir_all(&rt, OTHER_FOLDER);
    fs::create_dir(&rt, OTHER_FOLDER)?;
    fs::write(&rt, OTHER_PATH, b"abc")?;
    assert!(rt; FileDisk::create(&rt, OTHER_PATH).is_err());
    let mut disk = FileDisk::open(&rt, OTHER_PATH)?;
    assert!(rt; is_in_use(FileDisk::open(&rt, OTHER_PATH)));
    assert!(rt; disk.write_at(1, b"x").is_ok());
    assert!(rt; holds(&mut disk, b"axc"));
    drop(disk);
    let mut again = FileDisk::open(&rt, OTHER_PATH)?;
    assert!(rt; holds(&mut again, b"axc"));
    fs::remove_dir_all(&rt, OTHER_FOLDER)?;
    Ok(())
}

// A device that takes no bytes, one that cannot be synced, and a file that is not open for reading.
#[test]
fn what_the_system_refuses_fails(rt: HostRuntime) -> Result<(), Fail> {
    let full = OpenOptions::new().write(true).open(&rt, "/dev/full")?;
    assert!(rt; FileDisk::over(full).write_at(0, b"a").is_err());
    let null = OpenOptions::new().write(true).open(&rt, "/dev/null")?;
    assert!(rt; FileDisk::over(null).sync().is_err());
    let written = OpenOptions::new().write(true).open(&rt, "/dev/null")?;
    assert!(rt; FileDisk::over(written).read_at(0, &mut [0u8; 1]).is_err());
    // Opening syncs first.
    assert!(rt; FileDisk::open(&rt, "/dev/null").is_err());
    Ok(())
}

#[test]
fn a_file_stands_in_its_folder(rt: HostRuntime) -> Result<(), Fail> {
    assert_eq!(rt; folder_of("a.cells"), ".");
    assert_eq!(rt; folder_of("cells/of/a.cells"), "cells/of");
    assert_eq!(rt; folder_of("/a.cells"), "/");
    Ok(())
}

// What a crash after so many calls left, where these first bytes of the writes are there.
fn is_left(alloc: Global, disk: &MemDisk, calls: usize, landed: &[usize], bytes: &[u8]) -> bool {
    match disk.left_by_crash(alloc, calls, landed) {
        Ok(image) => image.as_slice() == bytes,
        Err(_) => false,
    }
}

// A write that was done, as the record has it.
fn done(place: u64, size: usize) -> DiskCall {
    DiskCall::Write {
        place,
        size,
        done: true,
    }
}

#[test]
fn a_crash_takes_what_was_not_synced(rt: HostRuntime) -> Result<(), Fail> {
    let alloc = rt.alloc();
    let mut disk = MemDisk::new(alloc, 6, 8, &[])?;
    assert!(rt; disk.write_at(0, b"ab").is_ok());
    assert!(rt; disk.sync().is_ok());
    assert!(rt; disk.write_at(1, b"xy").is_ok());
    assert!(rt; disk.write_at(5, b"z").is_ok());
    assert!(rt; disk.length() == Ok(6));
    assert!(rt; is_left(alloc, &disk, 1, &[], b""));
    assert!(rt; is_left(alloc, &disk, 2, &[], b"ab"));
    assert!(rt; is_left(alloc, &disk, 5, &[], b"ab"));
    assert!(rt; is_left(alloc, &disk, 5, &[0, 0, 1], b"ax"));
    assert!(rt; is_left(alloc, &disk, 5, &[0, 0, 0, 9], b"ab\0\0\0z"));
    assert!(rt; is_left(alloc, &disk, 5, &[9, 9, 9, 9], b"axy\0\0z"));
    assert_eq!(rt; disk.log(), b"abxyz".as_slice());
    let calls = [
        done(0, 2),
        DiskCall::Sync,
        done(1, 2),
        done(5, 1),
        DiskCall::Asked,
    ];
    assert!(rt; disk.calls() == calls.as_slice());
    Ok(())
}

#[test]
fn a_disk_fails_at_the_listed_calls_and_past_its_room(rt: HostRuntime) -> Result<(), Fail> {
    let alloc = rt.alloc();
    let mut disk = MemDisk::new(alloc, 3, 4, &[1])?;
    assert!(rt; disk.write_at(0, b"ab").is_ok());
    assert!(rt; disk.sync().is_err());
    assert!(rt; disk.write_at(2, b"cd").is_err());
    assert!(rt; is_left(alloc, &disk, 3, &[1], b"a"));
    assert!(rt; disk.sync().is_ok());
    assert!(rt; disk.sync().is_err());
    assert!(rt; is_left(alloc, &disk, 9, &[], b"ab"));
    assert_eq!(rt; disk.failures(), 3);
    Ok(())
}

#[test]
fn an_empty_write_changes_nothing(rt: HostRuntime) -> Result<(), Fail> {
    let alloc = rt.alloc();
    let mut disk = MemDisk::new(alloc, 8, 8, &[])?;
    assert!(rt; disk.write_at(0, b"ab").is_ok());
    assert!(rt; disk.write_at(5, b"").is_ok());
    assert!(rt; holds(&mut disk, b"ab"));
    assert!(rt; is_left(alloc, &disk, 2, &[2, 9], b"ab"));
    Ok(())
}
