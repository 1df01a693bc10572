// The attributes of Requests and SubRequests, and SubRequests without data.
use crate::test_envelopes::{BACK, FRONT, Waits, Wanted, joined, says};
use envelope_read::EnvelopeFault;

#[test]
fn attributes_of_requests(rt: HostRuntime) -> Result<(), EnvelopeFault> {
    for (request, sub, url, token, of_sub, wanted) in [
        ("", "", "", "", "", Wanted::NotSupported),
        (
            " Url='' RequestToken=''",
            " Type='' SubRequestToken=''",
            "",
            "",
            "",
            Wanted::NotSupported,
        ),
        (
            " RequestToken='7' Url='/a' Url='/b' RequestToken='8'",
            " Type='WhoAmI' SubRequestToken='5' Type='AmIAlone' SubRequestToken='6'",
            "/a",
            "7",
            "5",
            Wanted::WhoAmI,
        ),
        (
            " url='/a' xmlns:Url='/b' xmlns='/c' a:Url='/d'",
            " type='WhoAmI' xmlns:Type='WhoAmI' b:Type='AmIAlone'",
            "/d",
            "",
            "",
            Wanted::AmIAlone,
        ),
    ] {
        let text = joined(
            rt.alloc(),
            &[
                "<Envelope><Body><RequestCollection><Request",
                request,
                "><SubRequest",
                sub,
                "/>",
                BACK,
            ],
        )?;
        let row = (of_sub, Waits::Free, wanted);
        assert!(rt; says(rt.alloc(), text.as_slice(), url, token, &[row])?);
    }
    Ok(())
}

#[test]
fn subrequests_without_data(rt: HostRuntime) -> Result<(), EnvelopeFault> {
    for (kind, wanted) in [
        ("Cell", Wanted::Cell(b"", true, None)),
        ("ExclusiveLock", Wanted::BadArgument),
        ("SchemaLock", Wanted::BadArgument),
        ("Coauth", Wanted::BadArgument),
        ("EditorsTable", Wanted::BadArgument),
        ("Versioning", Wanted::BadArgument),
        ("AmIAlone", Wanted::AmIAlone),
        ("WhoAmI", Wanted::WhoAmI),
        ("", Wanted::NotSupported),
    ] {
        let text = joined(
            rt.alloc(),
            &[FRONT, "<SubRequest Type='", kind, "'/>", BACK],
        )?;
        let row = ("", Waits::Free, wanted);
        assert!(rt; says(rt.alloc(), text.as_slice(), "/a", "1", &[row])?);
    }
    Ok(())
}
