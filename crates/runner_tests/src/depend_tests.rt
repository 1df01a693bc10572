// Subrequests that depend on others of their Request: each word behind each state, and what is depended on.
use crate::test_documents::Change;
use crate::test_envelopes::{A, Asked, Exchange, Told};
use crate::test_host::Host;
use std::alloc::Global;
use std::process::Abort;
use std::test::Fail;

/// A subrequest: its token, its Type, the one that it depends on and how, and the word of its answer.
type Dependent<'a> = (&'a str, &'a str, &'a str, &'a str, &'a str);

const BEHIND_SUCCESS: [Dependent; 6] = [
    ("1", "WhoAmI", "", "", "Success"),
    ("2", "WhoAmI", "1", "OnExecute", "Success"),
    ("3", "WhoAmI", "1", "OnSuccess", "Success"),
    ("4", "WhoAmI", "1", "OnFail", SUCCEEDED),
    ("5", "WhoAmI", "1", "OnNotSupported", SUPPORTED),
    ("6", "WhoAmI", "1", "OnSuccessOrNotSupported", "Success"),
];

const BEHIND_FAILURE: [Dependent; 6] = [
    ("1", "ExclusiveLock", "", "", "InvalidArgument"),
    ("2", "WhoAmI", "1", "OnExecute", "Success"),
    ("3", "WhoAmI", "1", "OnSuccess", FAILED),
    ("4", "WhoAmI", "1", "OnFail", "Success"),
    ("5", "WhoAmI", "1", "OnNotSupported", SUPPORTED),
    ("6", "WhoAmI", "1", "OnSuccessOrNotSupported", FAILED),
];

const BEHIND_UNSUPPORTED: [Dependent; 6] = [
    ("1", "ServerTime", "", "", "RequestNotSupported"),
    ("2", "WhoAmI", "1", "OnExecute", "Success"),
    ("3", "WhoAmI", "1", "OnSuccess", FAILED),
    ("4", "WhoAmI", "1", "OnFail", "Success"),
    ("5", "WhoAmI", "1", "OnNotSupported", "Success"),
    ("6", "WhoAmI", "1", "OnSuccessOrNotSupported", "Success"),
];

const BEHIND_SKIPPED: [Dependent; 7] = [
    ("0", "WhoAmI", "", "", "Success"),
    ("1", "WhoAmI", "0", "OnFail", SUCCEEDED),
    ("2", "WhoAmI", "1", "OnExecute", NOT_EXECUTED),
    ("3", "WhoAmI", "1", "OnSuccess", NOT_EXECUTED),
    ("4", "WhoAmI", "1", "OnFail", NOT_EXECUTED),
    ("5", "WhoAmI", "1", "OnNotSupported", NOT_EXECUTED),
    ("6", "WhoAmI", "1", "OnSuccessOrNotSupported", NOT_EXECUTED),
];

/// Behind one that comes later, itself, and one that isn't there; without a word, and with an unknown one. Without one to
/// depend on, a word means nothing.
const BAD: [Dependent; 9] = [
    ("1", "WhoAmI", "2", "OnExecute", BAD_DEPENDENCY),
    ("2", "WhoAmI", "", "", "Success"),
    ("3", "WhoAmI", "3", "OnExecute", BAD_DEPENDENCY),
    ("4", "WhoAmI", "10", "OnFail", BAD_DEPENDENCY),
    ("5", "WhoAmI", "2", "", BAD_DEPENDENCY),
    ("6", "WhoAmI", "2", "onsuccess", BAD_DEPENDENCY),
    ("7", "WhoAmI", "", "OnFail", "Success"),
    ("8", "WhoAmI", "1", "OnFail", NOT_EXECUTED),
    ("9", "ServerTime", "10", "OnFail", BAD_DEPENDENCY),
];

/// A token that comes three times.
const TWICE: [Dependent; 6] = [
    ("1", "WhoAmI", "", "", "Success"),
    ("1", "ServerTime", "", "", "RequestNotSupported"),
    ("2", "WhoAmI", "1", "OnNotSupported", "Success"),
    ("1", "WhoAmI", "1", "OnFail", "Success"),
    ("3", "WhoAmI", "1", "OnSuccess", "Success"),
    ("4", "WhoAmI", "1", "OnFail", SUCCEEDED),
];

const SUCCEEDED: &str = "DependentOnlyOnFailRequestSucceeded";

const SUPPORTED: &str = "DependentOnlyOnNotSupportedRequestGetSupported";

const FAILED: &str = "DependentOnlyOnSuccessRequestFailed";

const NOT_EXECUTED: &str = "DependentRequestNotExecuted";

const BAD_DEPENDENCY: &str = "InvalidRequestDependencyType";

/// What is told with this word: who the user is, where it is a success.
fn told(word: &str) -> Told<'static> {
    match word {
        "Success" => Told::Data("<SubResponseData UserName='ann' UserLogin='ann'/>"),
        _ => Told::Nothing,
    }
}

fn add(alloc: Global, exchange: &mut Exchange, dependent: &Dependent) -> Result<(), Fail> {
    let (token, kind, on, how, word) = *dependent;
    let more = format!(in alloc; "DependsOn='{on}' DependencyType='{how}'")?;
    let sub = (token, kind, more.as_str(), Asked::Nothing, word, told(word));
    exchange.add_sub(&sub)?;
    Ok(())
}

/// Checks one Request of these subrequests.
fn check(rt: &impl Abort, alloc: Global, dependents: &[Dependent]) -> Result<(), Fail> {
    let mut host = Host::new(alloc)?;
    let mut exchange = Exchange::new(alloc)?;
    exchange.open(A, "1")?;
    for dependent in dependents {
        add(alloc, &mut exchange, dependent)?;
    }
    exchange.close()?;
    exchange.check(rt, &mut host, 0, Change::Done)
}

#[test]
fn each_word_behind_a_success(rt: HostRuntime) -> Result<(), Fail> {
    check(&rt, rt.alloc(), BEHIND_SUCCESS.as_slice())
}

#[test]
fn each_word_behind_a_failure(rt: HostRuntime) -> Result<(), Fail> {
    check(&rt, rt.alloc(), BEHIND_FAILURE.as_slice())
}

#[test]
fn each_word_behind_what_is_not_served(rt: HostRuntime) -> Result<(), Fail> {
    check(&rt, rt.alloc(), BEHIND_UNSUPPORTED.as_slice())
}

#[test]
fn each_word_behind_what_is_not_run(rt: HostRuntime) -> Result<(), Fail> {
    check(&rt, rt.alloc(), BEHIND_SKIPPED.as_slice())
}

#[test]
fn what_can_not_be_depended_on(rt: HostRuntime) -> Result<(), Fail> {
    check(&rt, rt.alloc(), BAD.as_slice())
}

#[test]
fn the_latest_of_a_token_counts(rt: HostRuntime) -> Result<(), Fail> {
    check(&rt, rt.alloc(), TWICE.as_slice())
}
