// Requests of an envelope, and the documents of their addresses.
use crate::test_documents::Change;
use crate::test_envelopes::{Asked, Exchange, Sub, Told};
use crate::test_host::Host;
use std::test::Fail;

const ANN: Told = Told::Data("<SubResponseData UserName='ann' UserLogin='ann'/>");

/// 1,000 numbers are drawn and the lock is taken.
const FIRST: [Sub; 2] = [
    (
        "1",
        "Cell",
        "",
        Asked::Cell("", "Q 16 02 06 00 03 17 00 02 04 06 00 A2 0F 00 0B 01 P"),
        "Success",
        Told::Cell("R 0E 02 06 00 03 17 00 0A 04 26 00 G 03 A2 0F 07 01 8B 01"),
    ),
    (
        "2",
        "ExclusiveLock",
        "",
        Asked::Data("ExclusiveLockRequestType='GetLock' ExclusiveLockID='~10'"),
        "Success",
        Told::Data(
            "<SubResponseData LockType='ExclusiveLock' CoauthStatus='None' TransitionID='00112233-4455-6677-8899-aabbccddeeff'/>",
        ),
    ),
];

/// The same of another document, under another id. What another Request asks can't be depended on.
const SECOND: [Sub; 3] = [
    (
        "3",
        "WhoAmI",
        "DependsOn='1' DependencyType='OnSuccess'",
        Asked::Nothing,
        "InvalidRequestDependencyType",
        Told::Nothing,
    ),
    (
        "1",
        "Cell",
        "",
        Asked::Cell("", "Q 16 02 06 00 03 17 00 02 04 06 00 A2 0F 00 0B 01 P"),
        "Success",
        Told::Cell(
            "R 0E 02 06 00 03 17 00 0A 04 26 00 00 00 00 00 00 00 00 00 00 00 00 00 00 00 00 48 03 A2 0F 07 01 8B 01",
        ),
    ),
    (
        "2",
        "ExclusiveLock",
        "DependsOn='1' DependencyType='OnSuccess'",
        Asked::Data("ExclusiveLockRequestType='GetLock' ExclusiveLockID='~11'"),
        "Success",
        Told::Data(
            "<SubResponseData LockType='ExclusiveLock' CoauthStatus='None' TransitionID='~48'/>",
        ),
    ),
];

/// The first document again.
const THIRD: [Sub; 2] = [
    (
        "1",
        "Cell",
        "",
        Asked::Cell("", "Q 16 02 06 00 03 17 00 02 04 06 00 A2 0F 00 0B 01 P"),
        "Success",
        Told::Cell("R 0E 02 06 00 03 17 00 0A 04 28 00 G A6 0F 42 1F 07 01 8B 01"),
    ),
    (
        "2",
        "ExclusiveLock",
        "",
        Asked::Data("ExclusiveLockRequestType='GetLock' ExclusiveLockID='~11'"),
        "FileAlreadyLockedOnServer",
        Told::Nothing,
    ),
];

/// Of no document: whether there is one comes before what is asked, and a dependency before all.
const NOWHERE: [Sub; 6] = [
    (
        "1",
        "WhoAmI",
        "",
        Asked::Nothing,
        "FileNotExistsOrCannotBeCreated",
        Told::Nothing,
    ),
    (
        "2",
        "ServerTime",
        "",
        Asked::Nothing,
        "FileNotExistsOrCannotBeCreated",
        Told::Nothing,
    ),
    (
        "3",
        "ExclusiveLock",
        "",
        Asked::Nothing,
        "FileNotExistsOrCannotBeCreated",
        Told::Nothing,
    ),
    (
        "4",
        "Cell",
        "",
        Asked::Data("PartitionID='~01'"),
        "FileNotExistsOrCannotBeCreated",
        Told::Nothing,
    ),
    (
        "5",
        "WhoAmI",
        "DependsOn='1' DependencyType='OnFail'",
        Asked::Nothing,
        "FileNotExistsOrCannotBeCreated",
        Told::Nothing,
    ),
    (
        "6",
        "WhoAmI",
        "DependsOn='1' DependencyType='OnSuccess'",
        Asked::Nothing,
        "DependentOnlyOnSuccessRequestFailed",
        Told::Nothing,
    ),
];

#[test]
fn each_request_is_of_its_own_document(rt: HostRuntime) -> Result<(), Fail> {
    let alloc = rt.alloc();
    let mut host = Host::new(alloc)?;
    let mut exchange = Exchange::new(alloc)?;
    exchange.add("http://h/a.docx", "1", FIRST.as_slice())?;
    exchange.add("http://h/b.docx", "2", SECOND.as_slice())?;
    exchange.add("http://h/a.docx", "3", THIRD.as_slice())?;
    exchange.add("http://h/c.docx", "4", NOWHERE.as_slice())?;
    exchange.add("http://h/a.docx", "", &[])?;
    exchange.check(&rt, &mut host, 0, Change::Done)
}

/// One that asks who the user is, of a document that is there, and of none.
const HERE: [Sub; 1] = [("1", "WhoAmI", "", Asked::Nothing, "Success", ANN)];

const NOT_HERE: [Sub; 1] = [(
    "1",
    "WhoAmI",
    "",
    Asked::Nothing,
    "FileNotExistsOrCannotBeCreated",
    Told::Nothing,
)];

/// Addresses of `a.docx` and `b.docx`.
const ADDRESSES: [&str; 7] = [
    "a.docx",
    "/a.docx",
    "http://h/x/a.docx?y/b.docx",
    "http://h/a.docx#x?y",
    "/%61%2edocx",
    "/&lt;&gt;&amp;&quot;&#9;&#10;&#13;/a.docx",
    "/b%2Edoc%78?%",
];

/// Addresses of no document.
const NO_ADDRESSES: [&str; 8] = [
    "",
    "http://h/",
    "http://h/a.docx/",
    "A.docx",
    "a.doc",
    "%61.doc%7",
    "%6g.docx",
    "x?/a.docx",
];

/// Adds a Request of these subrequests for each address.
fn add_each(exchange: &mut Exchange, addresses: &[&str], subs: &[Sub]) -> Result<(), Fail> {
    for address in addresses {
        exchange.add(address, "1", subs)?;
    }
    Ok(())
}

#[test]
fn the_last_segment_of_an_address_is_its_name(rt: HostRuntime) -> Result<(), Fail> {
    let alloc = rt.alloc();
    let mut host = Host::new(alloc)?;
    let mut exchange = Exchange::new(alloc)?;
    add_each(&mut exchange, ADDRESSES.as_slice(), HERE.as_slice())?;
    add_each(&mut exchange, NO_ADDRESSES.as_slice(), NOT_HERE.as_slice())?;
    exchange.check(&rt, &mut host, 0, Change::Done)
}
