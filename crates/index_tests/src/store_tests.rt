// Elements by serial number and by id.
ghost use Rattle.std.specs.Prelude.{◌≤◌, IfOk, IsTrue};
ghost use Rattle.doc_model.specs.rules.Limits.{most_objects};
ghost use Rattle.doc_model.specs.rules.Weights.{objects_written};

use compact_values::{ExGuid, Guid, NoMemory, Octets};
use doc_model::{Body, Element, weight};
use element_store::ElementStore;
use std::alloc::Global;
use std::process::Abort;
use std::test::Fail;

const A: Guid = Guid { number: 0xA0 };

const B: Guid = Guid { number: 0xB0 };

fn id(guid: Guid, value: u32) -> ExGuid {
    ExGuid::Id { guid, value }
}

/// A blob with as many bytes as the value of its id.
fn blob(alloc: Global, id: ExGuid) -> Result<Element, NoMemory>
    ensures { IfOk result (λ e. objects_written e ≤ most_objects) }
{
    let count = match id {
        ExGuid::Null => 0,
        ExGuid::Id { value, .. } => value,
    };
    let mut bytes = Octets::new(alloc);
    for _ in 0..count {
        bytes.push(7)?;
    }
    Ok(Element {
        id,
        body: Body::Blob { bytes },
    })
}

/// Whether an element is a blob, which is written in few stream objects.
fn is_blob(element: &Element) -> bool
    ensures { IsTrue result → objects_written element.now ≤ most_objects }
{
    match &element.body {
        Body::Blob { .. } => true,
        _ => false,
    }
}

/// Adds an element whose id isn't there, and gives its serial number.
fn add(store: &mut ElementStore, element: Element) -> Result<Option<u64>, NoMemory> {
    if store.find(&element.id).is_some() {
        return Ok(None);
    }
    store.reserve(1)?;
    Ok(Some(store.add(element)))
}

/// What all elements of a store of blobs weigh.
fn whole_weight(store: &ElementStore) -> u128 {
    if store.as_slice().iter().all(|element| is_blob(element)) {
        store.weight()
    } else {
        0
    }
}

/// A store with blobs of these ids, which gives them the serial numbers from 1 on.
fn store_of(rt: &impl Abort, alloc: Global, ids: &[ExGuid]) -> Result<ElementStore, Fail> {
    let mut store = ElementStore::new(alloc);
    let mut serial = 0_u64;
    for id in ids {
        serial = serial.saturating_add(1);
        let added = add(&mut store, blob(alloc, *id)?)?;
        assert_eq!(rt; added, Some(serial));
    }
    Ok(store)
}

#[test]
fn ids_are_found(rt: HostRuntime) -> Result<(), Fail> {
    let alloc = rt.alloc();
    let rows: [&[ExGuid]; 5] = [
        &[],
        &[ExGuid::Null],
        &[id(A, 1), id(A, 2), id(A, 3)],
        &[id(B, 3), id(B, 2), id(A, 3), id(B, 1), id(A, 2), id(A, 1)],
        &[
            id(A, 2),
            ExGuid::Null,
            id(B, 2),
            id(A, 9),
            id(B, 0),
            id(A, 0),
        ],
    ];
    for ids in rows.iter() {
        let mut store = store_of(&rt, alloc, ids)?;
        assert_eq!(rt; store.length() as usize, ids.len());
        let mut serial = 0_u64;
        for id in ids.iter() {
            serial = serial.saturating_add(1);
            assert_eq!(rt; store.find(id), Some(serial));
            let again = blob(alloc, *id)?;
            assert_eq!(rt; add(&mut store, again)?, None);
        }
        assert_eq!(rt; store.find(&id(A, 4)), None);
    }
    Ok(())
}

#[test]
fn elements_and_weights_are_kept(rt: HostRuntime) -> Result<(), Fail> {
    let alloc = rt.alloc();
    let ids = [id(B, 200), id(A, 1), id(A, 40_000)];
    let store = store_of(&rt, alloc, &ids)?;
    let mut whole = 0_u128;
    for (element, id) in store.as_slice().iter().zip(ids.iter()) {
        let same = blob(alloc, *id)?;
        assert!(rt; *element == same, "not the element");
        let Some(serial) = store.find(id) else {
            return Err(Fail::from("not found"));
        };
        assert_eq!(rt; store.weight_at(serial), weight(&same), "{serial}");
        assert!(rt; *store.at(serial) == same, "not the element");
        whole = whole.saturating_add(weight(&same));
    }
    assert_eq!(rt; whole_weight(&store), whole);
    Ok(())
}
