// Uploads in parts, and what clients get of a document.
use crate::test_calls::{pull, pulled, range, refused, restore, stored};
use crate::test_files::{
    CLIENT, SMALL, first_part, group_first, id, index, last_part, next_save, nine, own, save,
    without_group,
};
use crate::test_table::{Table, play};
use compact_values::{ExGuid, Guid};
use doc_model::{Code, Range, Reply};
use std::test::Fail;

/// Whose numbers the elements of another file have.
const B: Guid = Guid { number: 0xB };

#[test]
fn what_came_first_has_the_first_numbers(rt: HostRuntime) -> Result<(), Fail> {
    let alloc = rt.alloc();
    let all = group_first(alloc)?;
    let mut table = Table::new(alloc);
    table.stays(10, without_group(alloc), refused(Code::NotFound));
    table.moves(20, first_part(alloc), stored(alloc, &[]));
    let last = last_part(alloc, ExGuid::Null);
    table.moves(30, last, stored(alloc, &[range(1, 5)]));
    let come = pulled(
        alloc,
        index(CLIENT),
        all.as_slice(),
        &[1, 2, 3, 4, 5],
        &[range(1, 5)],
    );
    table.stays(40, pull(alloc, &[]), come);
    play(&rt, table)
}

#[test]
fn an_upload_expects_what_is_stored_at_its_end(rt: HostRuntime) -> Result<(), Fail> {
    let alloc = rt.alloc();
    let mut table = Table::new(alloc);
    table.moves(100, first_part(alloc), stored(alloc, &[]));
    let other = save(alloc, b"another file", B, ExGuid::Null);
    table.moves(200, other, stored(alloc, &[range(1, 5)]));
    let late = last_part(alloc, ExGuid::Null);
    table.stays(300, late, refused(Code::Coherency));
    let last = last_part(alloc, index(B));
    table.moves(400, last, stored(alloc, &[range(6, 10)]));
    play(&rt, table)
}

#[test]
fn a_put_drops_parts_that_are_a_day_old(rt: HostRuntime) -> Result<(), Fail> {
    let alloc = rt.alloc();
    let mut table = Table::new(alloc);
    table.moves(100, first_part(alloc), stored(alloc, &[]));
    let other = save(alloc, b"another file", B, ExGuid::Null);
    table.moves(86_500, other, stored(alloc, &[range(1, 5)]));
    let last = last_part(alloc, index(B));
    table.stays(86_501, last, refused(Code::NotFound));
    play(&rt, table)
}

#[test]
fn a_restore_drops_no_part(rt: HostRuntime) -> Result<(), Fail> {
    let alloc = rt.alloc();
    let mut table = Table::new(alloc);
    table.moves(100, first_part(alloc), stored(alloc, &[]));
    let other = save(alloc, b"another file", B, ExGuid::Null);
    table.moves(86_499, other, stored(alloc, &[range(1, 5)]));
    table.moves(86_500, restore(1, None), Ok(Reply::Done));
    let last = last_part(alloc, own(1));
    table.moves(86_501, last, stored(alloc, &[range(7, 11)]));
    play(&rt, table)
}

#[test]
fn clients_get_what_they_lack(rt: HostRuntime) -> Result<(), Fail> {
    let alloc = rt.alloc();
    let all = nine(alloc)?;
    let all = all.as_slice();
    let first = [range(1, 5)];
    let mut table = Table::new(alloc);
    let save = save(alloc, SMALL, CLIENT, ExGuid::Null);
    table.moves(10, save, stored(alloc, &first));
    let come = pulled(alloc, index(CLIENT), all, &[], &first);
    table.stays(11, pull(alloc, &first), come);
    table.moves(20, next_save(alloc), stored(alloc, &[range(1, 8)]));
    let come = pulled(alloc, id(11), all, &[6, 7, 8], &[range(1, 8)]);
    table.stays(21, pull(alloc, &first), come);
    // what the new index reaches: neither the index nor the cell manifest of before
    let reached = [range(2, 2), range(4, 8)];
    let come = pulled(alloc, id(11), all, &[2, 4, 5, 6, 7, 8], &reached);
    table.stays(22, pull(alloc, &[]), come);
    // a restore of the first version reaches that cell manifest again, from the ninth element
    table.moves(30, restore(1, None), Ok(Reply::Done));
    let come = pulled(alloc, own(1), all, &[3, 9], &[range(2, 9)]);
    table.stays(31, pull(alloc, &reached), come);
    play(&rt, table)
}

#[test]
fn clients_know_what_lies_in_a_range(rt: HostRuntime) -> Result<(), Fail> {
    let alloc = rt.alloc();
    let all = nine(alloc)?;
    let all = all.as_slice();
    let foreign = Range {
        guid: CLIENT,
        from: 1,
        to: 8,
    };
    let reached = [range(2, 2), range(4, 8)];
    let front = [range(1, 2), range(4, 8)];
    // a moment, what is known, what is sent of 2 and 4 to 8, which are reached, and what is known then
    let rows: [(u32, &[Range], &[usize], &[Range]); 12] = [
        (21, &[range(2, 4), range(3, 5)], &[6, 7, 8], &[range(2, 8)]),
        (22, &[range(4, 5), range(2, 3)], &[6, 7, 8], &[range(2, 8)]),
        (23, &[range(2, 8), range(3, 4)], &[], &[range(2, 8)]),
        (24, &[range(3, 4), range(3, 6)], &[2, 7, 8], &[range(2, 8)]),
        (25, &[range(3, 6), range(3, 4)], &[2, 7, 8], &[range(2, 8)]),
        (26, &[range(0, 2)], &[4, 5, 6, 7, 8], &front),
        (27, &[range(0, 0)], &[2, 4, 5, 6, 7, 8], &reached),
        (28, &[range(5, 3)], &[2, 4, 5, 6, 7, 8], &reached),
        (
            29,
            &[range(7, 18_446_744_073_709_551_615)],
            &[2, 4, 5, 6],
            &reached,
        ),
        (30, &[range(8, 8)], &[2, 4, 5, 6, 7], &reached),
        (31, &[range(9, 20)], &[2, 4, 5, 6, 7, 8], &reached),
        (32, &[foreign, range(1, 1)], &[2, 4, 5, 6, 7, 8], &front),
    ];
    let mut table = Table::new(alloc);
    let save = save(alloc, SMALL, CLIENT, ExGuid::Null);
    table.moves(10, save, stored(alloc, &[range(1, 5)]));
    table.moves(20, next_save(alloc), stored(alloc, &[range(1, 8)]));
    for (moment, known, sent, then) in &rows {
        let come = pulled(alloc, id(11), all, *sent, *then);
        table.stays(*moment, pull(alloc, *known), come);
    }
    play(&rt, table)
}
