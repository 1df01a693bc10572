use compact_values::{ExGuid, Octets};
use doc_model::{Body, Element, weight};
use std::test::Fail;

#[test]
fn a_blob_of_three_bytes_weighs_12(rt: HostRuntime) -> Result<(), Fail> {
    // Its own start of 2 bytes, its id, serial number and kind of a byte each, the blob's start of 2 bytes, a length of a
    // byte and the three bytes, and its own end of a byte.
    let mut bytes = Octets::new(rt.alloc());
    bytes.extend_from_slice(&[1, 2, 3]).ok().ok_or("memory")?;
    let element = Element {
        id: ExGuid::Null,
        body: Body::Blob { bytes },
    };
    assert!(rt; weight(&element) == 12);
    Ok(())
}
