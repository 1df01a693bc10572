use compact_values::{ExGuid, NoMemory, Octets, Seq};
use doc_model::{
    Body, CellRequest, Element, Elements, Knowledge, Range, Ranges, WireKind, WireSub, WireSubs,
};
use std::alloc::Global;
use std::test::Fail;
use stream_objects::TreeFault;
use test_forms::{add_form, bytes_of, guid, id};
use wire_requests::*;

/// A request with one sub-request, which draws 1,000 numbers.
const DRAW: [&str; 5] = [
    "Q",
    "16 02 06 00 03 17 00",
    "02 04 06 00 A2 0F 00",
    "0B 01",
    "P",
];

/// A 42 with the id 1, of kind 2, up to its 51.
const QUERY: &str = "16 02 06 00 03 05 00 8A 02 02 00 00";

/// Objects 10 and 44 up to the 14 in them; and their ends.
const KNOWLEDGE: &str = "84 00 26 02 20 00 K A4 00";

const KNOWLEDGE_END: &str = "51 13 01 41";

fn one_sub(alloc: Global, kind: u64, what: WireKind) -> Result<CellRequest, NoMemory> {
    let mut subs = Seq::new(alloc);
    subs.push(WireSub { id: 1, kind, what })?;
    let elements = Seq::new(alloc);
    Ok(CellRequest { subs, elements })
}

fn one_range(alloc: Global, from: u64, to: u64) -> Result<Knowledge, NoMemory> {
    let mut ranges = Seq::new(alloc);
    let guid = guid();
    ranges.push(Range { guid, from, to })?;
    Ok(Knowledge { ranges })
}

fn is_read_as(alloc: Global, bytes: &[u8], request: &CellRequest) -> bool {
    match read_cell_request(alloc, bytes) {
        Ok(found) => found == *request,
        Err(_) => false,
    }
}

fn fault_of(alloc: Global, bytes: &[u8]) -> Option<WireFault> {
    read_cell_request(alloc, bytes).err()
}

#[test]
fn a_draw_is_read_and_written(rt: HostRuntime) -> Result<(), Fail> {
    let alloc = rt.alloc();
    let draw = bytes_of(alloc, &DRAW)?;
    let request = one_sub(alloc, 11, WireKind::Draw { count: 1000 })?;
    assert!(rt; is_read_as(alloc, draw.as_slice(), &request));
    let written = write_cell_request(alloc, &request)?;
    assert_eq!(rt; written.as_slice(), draw.as_slice());
    Ok(())
}

#[test]
fn each_cut_is_refused(rt: HostRuntime) -> Result<(), Fail> {
    let alloc = rt.alloc();
    let draw = bytes_of(alloc, &DRAW)?;
    let draw = draw.as_slice();
    for cut in 0..draw.len() {
        let fault = fault_of(alloc, &draw[..cut]).ok_or("a cut is no request")?;
        let wanted = if cut < 12 {
            WireFault::BadFront
        } else {
            WireFault::TreeFault {
                fault: TreeFault::Short { place: cut },
            }
        };
        assert!(rt; fault == wanted);
    }
    let mut longer = bytes_of(alloc, &DRAW)?;
    longer.push(0)?;
    assert!(rt; fault_of(alloc, longer.as_slice()) == Some(WireFault::Extra { place: 38 }));
    Ok(())
}

/// The signature of a response, behind these fronts, and an end of another type behind the package.
#[test]
fn fronts_are_judged_first(rt: HostRuntime) -> Result<(), Fail> {
    let rows = [
        ("0C 00 0B 00", WireFault::BadSignature),
        ("0B 00 0B 00", WireFault::BadFront),
        ("0E 00 0D 00", WireFault::BadFront),
    ];
    for (front, fault) in rows {
        let bytes = bytes_of(
            rt.alloc(),
            &[
                front,
                "9D CF 29 F3 39 94 06 9B 06 02 00 00 AC 02 00 55 03 00",
            ],
        )?;
        assert!(rt; fault_of(rt.alloc(), bytes.as_slice()) == Some(fault));
    }
    Ok(())
}

#[test]
fn a_query_without_knowledge_knows_nothing(rt: HostRuntime) -> Result<(), Fail> {
    let alloc = rt.alloc();
    let bytes = bytes_of(alloc, &["Q", QUERY, "0B 01", "P"])?;
    let knowledge = Knowledge {
        ranges: Seq::new(alloc),
    };
    let request = one_sub(alloc, 2, WireKind::Pull { knowledge })?;
    assert!(rt; is_read_as(alloc, bytes.as_slice(), &request));
    Ok(())
}

/// A 52 stands behind the 51, and the knowledge in a 5D, which has no place. The range from 5 to 1 and the null entry hold
/// nothing, and the knowledge behind the 5D doesn't count.
#[test]
fn the_first_knowledge_counts_wherever_it_stands(rt: HostRuntime) -> Result<(), Fail> {
    let alloc = rt.alloc();
    let form = [
        "Q",
        QUERY,
        "92 02 00 00",
        "EE 02 00 00",
        KNOWLEDGE,
        "78 24 G 0B 03",
        "B8 02 00",
        KNOWLEDGE_END,
        "77 01",
        "84 00 41",
        "0B 01",
        "P",
    ];
    let bytes = bytes_of(alloc, &form)?;
    let knowledge = one_range(alloc, 5, 1)?;
    let request = one_sub(alloc, 2, WireKind::Pull { knowledge })?;
    assert!(rt; is_read_as(alloc, bytes.as_slice(), &request));
    Ok(())
}

/// A 10 that isn't compound is no knowledge: it is a fault where it comes first, and doesn't count behind another.
#[test]
fn only_the_first_knowledge_is_judged(rt: HostRuntime) -> Result<(), Fail> {
    let alloc = rt.alloc();
    let bytes = bytes_of(alloc, &["Q", QUERY, "80 00", "84 00 41", "0B 01", "P"])?;
    assert!(rt; fault_of(alloc, bytes.as_slice()) == Some(WireFault::SchemaFault { place: 30 }));
    let bytes = bytes_of(alloc, &["Q", QUERY, "84 00 41", "80 00", "0B 01", "P"])?;
    assert!(rt; fault_of(alloc, bytes.as_slice()) == None);
    Ok(())
}

/// So many times the same sub-request.
fn repeated(alloc: Global, sub: &str, times: usize) -> Result<Octets, NoMemory> {
    let mut out = bytes_of(alloc, &["Q"])?;
    for _ in 0..times {
        add_form(&mut out, sub)?;
    }
    add_form(&mut out, "P")?;
    Ok(out)
}

#[test]
fn limits_of_sub_requests(rt: HostRuntime) -> Result<(), Fail> {
    let alloc = rt.alloc();
    let access = "16 02 06 00 03 03 00 0B 01";
    let most = repeated(alloc, access, 64)?;
    assert!(rt; fault_of(alloc, most.as_slice()) == None);
    let more = repeated(alloc, access, 65)?;
    assert!(rt; fault_of(alloc, more.as_slice()) == Some(WireFault::SchemaFault { place: 596 }));
    Ok(())
}

#[test]
fn limits_of_puts(rt: HostRuntime) -> Result<(), Fail> {
    let alloc = rt.alloc();
    let put = "16 02 06 00 03 0B 00 D2 02 06 00 00 00 80 0B 01";
    let most = repeated(alloc, put, 4)?;
    assert!(rt; fault_of(alloc, most.as_slice()) == None);
    let more = repeated(alloc, put, 5)?;
    assert!(rt; fault_of(alloc, more.as_slice()) == Some(WireFault::SchemaFault { place: 91 }));
    Ok(())
}

/// A put whose 5A is compound, with a byte behind the flags and a child: index null, expected G with the value 1.
#[test]
fn a_put_in_either_mark(rt: HostRuntime) -> Result<(), Fail> {
    let alloc = rt.alloc();
    let form = [
        "Q",
        "16 02 08 00 03 0B 00 07",
        "D6 02 28 00 00 0C G 81 55",
        "B8 00",
        "6B 01",
        "0B 01",
        "P",
    ];
    let bytes = bytes_of(alloc, &form)?;
    let what = WireKind::Put {
        index: ExGuid::Null,
        expected: id(1),
        flags: 0x81,
    };
    let request = one_sub(alloc, 5, what)?;
    assert!(rt; is_read_as(alloc, bytes.as_slice(), &request));
    Ok(())
}

#[test]
fn other_kinds_are_unknown(rt: HostRuntime) -> Result<(), Fail> {
    let alloc = rt.alloc();
    let rows = [
        (3, "16 02 06 00 03 07 00 0B 01"),
        (12, "16 02 06 00 03 19 00 0B 01"),
    ];
    for (kind, sub) in rows {
        let bytes = bytes_of(alloc, &["Q", sub, "P"])?;
        let request = one_sub(alloc, kind, WireKind::Unknown)?;
        assert!(rt; is_read_as(alloc, bytes.as_slice(), &request));
    }
    Ok(())
}

/// A package of so many cell manifests, and behind it a 42 without fields if it is to be broken.
fn many(alloc: Global, count: usize, broken: bool) -> Result<Octets, NoMemory> {
    let mut out = bytes_of(alloc, &["Q", "AC 02 00"])?;
    for _ in 0..count {
        add_form(&mut out, "0C 06 00 00 07 58 02 00 05")?;
    }
    out.push(0x55)?;
    if broken {
        add_form(&mut out, "16 02 00 00 0B 01")?;
    }
    add_form(&mut out, "03 01")?;
    Ok(out)
}

#[test]
fn too_many_elements_are_told_last(rt: HostRuntime) -> Result<(), Fail> {
    let alloc = rt.alloc();
    let most = many(alloc, 8192, false)?;
    assert!(rt; fault_of(alloc, most.as_slice()) == None);
    let more = many(alloc, 8193, false)?;
    assert!(rt; fault_of(alloc, more.as_slice()) == Some(WireFault::TooMany));
    let broken = many(alloc, 8193, true)?;
    assert!(rt;
        fault_of(alloc, broken.as_slice()) == Some(WireFault::SchemaFault { place: 73_761 })
    );
    Ok(())
}

fn add(subs: &mut WireSubs, kind: u64, what: WireKind) -> Result<(), NoMemory> {
    subs.push(WireSub {
        id: kind,
        kind,
        what,
    })
}

/// A sub-request of each kind, and one element.
fn each_kind(alloc: Global) -> Result<CellRequest, NoMemory> {
    let index = id(7);
    let mut subs = Seq::new(alloc);
    add(&mut subs, 1, WireKind::Access)?;
    let knowledge = one_range(alloc, 1, 500)?;
    add(&mut subs, 2, WireKind::Pull { knowledge })?;
    let put = WireKind::Put {
        index,
        expected: ExGuid::Null,
        flags: 1,
    };
    add(&mut subs, 5, put)?;
    add(&mut subs, 11, WireKind::Draw { count: 3 })?;
    add(&mut subs, 300, WireKind::Unknown)?;
    let mut elements = Seq::new(alloc);
    let current = ExGuid::Null;
    elements.push(Element {
        id: index,
        body: Body::Cell { current },
    })?;
    Ok(CellRequest { subs, elements })
}

#[test]
fn what_is_written_is_read_again(rt: HostRuntime) -> Result<(), Fail> {
    let alloc = rt.alloc();
    let request = each_kind(alloc)?;
    let written = write_cell_request(alloc, &request)?;
    assert!(rt; is_read_as(alloc, written.as_slice(), &request));
    Ok(())
}
