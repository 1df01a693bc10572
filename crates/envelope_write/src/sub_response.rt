// What is said of one subrequest (MS-FSSHTTP 2.2.3).
ghost use Rattle.std.specs.Prelude.{◌≡◌, ◌∷◌, ◌++◌, [], None, Some, OnOk, codes};
ghost use Rattle.envelope_write.specs.AnswerText.{version_element, version_text, versions_text, data_holding, data_saying, locked_attributes, user_attributes, sub_attributes, answered_text, data_text, sub_text};
ghost use Rattle.envelope_write.specs.Attributes.{as_pairs};
ghost use Rattle.envelope_write.specs.Words.{truth};
ghost use Rattle.envelope_write.specs.Xml.{element, start_tag, tag_rest};
ghost use Rattle.base64.specs.Engines.{standard};
ghost use Rattle.base64.specs.GeneralPurpose.{encode_of};

use crate::base::append_base64;
use crate::words::{error_code, lock_word, result_code, status_word, truth};
use crate::xml::{Attribute, append_end, append_start};
use compact_values::{Guid, NoMemory, Text, guid_text};
use doc_model::{Coauthors, Commit, LockKind, Reply, Submitted};
use envelope_read::{Outcome, SubAsk};
use itoa::Buffer;
use std::alloc::Global;

const SUB_RESPONSE: &[u8] = b"SubResponse";

const DATA: &[u8] = b"SubResponseData";

const VERSIONS: &[u8] = b"Versions";

/// Adds a version, by the texts of its number and moment and by its user.
fn append_version_tag(
    out: &mut Vec<u8>,
    number: &[u8],
    moment: &[u8],
    user: &[u8],
) -> Result<(), NoMemory>
    ensures { OnOk result (out.new.items ≡ out.old.items ++ version_element number.now moment.now user.now) }
{
    let attributes = [
        Attribute {
            name: b"Number",
            value: number,
        },
        Attribute {
            name: b"Moment",
            value: moment,
        },
        Attribute {
            name: b"User",
            value: user,
        },
    ];
    append_start(out, b"Version", &attributes)?;
    out.extend_from_slice(b"/>")?;
    Ok(())
}

/// Adds a version.
#[tactic(auto, unfolding(crate::specs::AnswerText::version_text))]
fn append_version(out: &mut Vec<u8>, number: usize, commit: &Commit) -> Result<(), NoMemory>
    ensures { OnOk result (out.new.items ≡ out.old.items ++ version_text number commit.now) }
{
    let mut number_text = Buffer::new();
    let mut moment_text = Buffer::new();
    append_version_tag(
        out,
        number_text.format(number).as_bytes(),
        moment_text.format(commit.moment).as_bytes(),
        commit.user.as_str().as_bytes(),
    )
}

/// Adds the versions, the first being version 1.
fn append_versions(out: &mut Vec<u8>, commits: &[Commit]) -> Result<(), NoMemory>
    ensures { OnOk result (out.new.items ≡ out.old.items ++ versions_text 1 commits.now) }
{
    for i in 0..commits.len() {
        append_version(out, i + 1, &commits[i])?;
    }
    Ok(())
}

/// Adds the rest of a SubResponse whose data says all by its attributes.
fn append_saying(out: &mut Vec<u8>, attributes: &[Attribute]) -> Result<(), NoMemory>
    ensures { OnOk result (out.new.items ≡ out.old.items ++ tag_rest (codes "SubResponse") (data_saying (as_pairs attributes.now))) }
{
    out.extend_from_slice(b">")?;
    append_start(out, DATA, attributes)?;
    out.extend_from_slice(b"/>")?;
    append_end(out, SUB_RESPONSE)
}

/// Adds the rest of a SubResponse with a binary response.
fn append_cell(out: &mut Vec<u8>, bytes: &[u8]) -> Result<(), NoMemory>
    ensures { OnOk result (out.new.items ≡ out.old.items ++ tag_rest (codes "SubResponse") (data_holding (encode_of standard bytes.now))) }
{
    out.extend_from_slice(b">")?;
    append_start(out, DATA, &[])?;
    out.extend_from_slice(b">")?;
    append_base64(out, bytes)?;
    append_end(out, DATA)?;
    append_end(out, SUB_RESPONSE)
}

/// Adds the element of all versions.
fn append_all_versions(out: &mut Vec<u8>, commits: &[Commit]) -> Result<(), NoMemory>
    ensures { OnOk result (out.new.items ≡ out.old.items ++ element (codes "Versions") [] (Some (versions_text 1 commits.now))) }
{
    append_start(out, VERSIONS, &[])?;
    out.extend_from_slice(b">")?;
    append_versions(out, commits)?;
    append_end(out, VERSIONS)
}

/// Adds the rest of a SubResponse with the versions.
fn append_version_list(out: &mut Vec<u8>, commits: &[Commit]) -> Result<(), NoMemory>
    ensures { OnOk result (out.new.items ≡ out.old.items
        ++ tag_rest (codes "SubResponse") (data_holding (element (codes "Versions") [] (Some (versions_text 1 commits.now))))) }
{
    out.extend_from_slice(b">")?;
    append_start(out, DATA, &[])?;
    out.extend_from_slice(b">")?;
    append_all_versions(out, commits)?;
    append_end(out, DATA)?;
    append_end(out, SUB_RESPONSE)
}

/// Adds the rest of a SubResponse that tells of a lock.
fn append_locked(
    alloc: Global,
    out: &mut Vec<u8>,
    guid: Guid,
    kind: LockKind,
    status: Coauthors,
) -> Result<(), NoMemory>
    ensures { OnOk result (out.new.items ≡ out.old.items
        ++ tag_rest (codes "SubResponse") (data_saying (locked_attributes guid kind status))) }
{
    let transition = guid_text(alloc, guid)?;
    append_saying(
        out,
        &[
            Attribute {
                name: b"LockType",
                value: lock_word(kind),
            },
            Attribute {
                name: b"CoauthStatus",
                value: status_word(status),
            },
            Attribute {
                name: b"TransitionID",
                value: transition.as_str().as_bytes(),
            },
        ],
    )
}

/// Adds the rest of a SubResponse that tells whether the caller edits alone.
fn append_lone(out: &mut Vec<u8>, alone: bool) -> Result<(), NoMemory>
    ensures { OnOk result (out.new.items ≡ out.old.items
        ++ tag_rest (codes "SubResponse") (data_saying ((codes "AmIAlone", truth alone) ∷ []))) }
{
    append_saying(
        out,
        &[Attribute {
            name: b"AmIAlone",
            value: truth(alone),
        }],
    )
}

/// Adds the rest of a SubResponse that tells the caller's user.
fn append_user(out: &mut Vec<u8>, user: &Text) -> Result<(), NoMemory>
    ensures { OnOk result (out.new.items ≡ out.old.items
        ++ tag_rest (codes "SubResponse") (data_saying (user_attributes user.now))) }
{
    let value = user.as_str().as_bytes();
    append_saying(
        out,
        &[
            Attribute {
                name: b"UserName",
                value,
            },
            Attribute {
                name: b"UserLogin",
                value,
            },
        ],
    )
}

/// Adds the rest of a SubResponse to a call that was answered.
#[tactic(auto, unfolding(crate::specs::AnswerText::answered_text))]
fn append_answered(alloc: Global, out: &mut Vec<u8>, reply: &Reply) -> Result<(), NoMemory>
    ensures { OnOk result (out.new.items ≡ out.old.items ++ tag_rest (codes "SubResponse") (answered_text reply.now)) }
{
    match reply {
        Reply::Locked { guid, kind, status } => append_locked(alloc, out, *guid, *kind, *status),
        Reply::VersionList { commits } => append_version_list(out, commits.as_slice()),
        Reply::Lone { alone } => append_lone(out, *alone),
        Reply::Me { user } => append_user(out, user),
        _ => append_no_data(out),
    }
}

/// Adds the rest of a SubResponse without data.
fn append_no_data(out: &mut Vec<u8>) -> Result<(), NoMemory>
    ensures { OnOk result (out.new.items ≡ out.old.items ++ tag_rest (codes "SubResponse") None) }
{
    out.extend_from_slice(b"/>")?;
    Ok(())
}

/// Adds the rest of a SubResponse behind its start tag.
#[tactic(auto, unfolding(crate::specs::AnswerText::data_text))]
fn append_rest(alloc: Global, out: &mut Vec<u8>, outcome: &Outcome) -> Result<(), NoMemory>
    ensures { OnOk result (out.new.items ≡ out.old.items ++ tag_rest (codes "SubResponse") (data_text outcome.now)) }
{
    match outcome {
        Outcome::Plain { submitted } => match submitted {
            Submitted::Answered { reply } => append_answered(alloc, out, reply),
            _ => append_no_data(out),
        },
        Outcome::Cell { bytes, .. } => append_cell(out, bytes.as_slice()),
        _ => append_no_data(out),
    }
}

/// Adds the start tag of a SubResponse, up to what ends it.
fn append_sub_start(out: &mut Vec<u8>, token: &Text, word: &[u8]) -> Result<(), NoMemory>
    ensures { OnOk result (out.new.items ≡ out.old.items ++ start_tag (codes "SubResponse") (sub_attributes token.now word.now)) }
{
    append_start(
        out,
        SUB_RESPONSE,
        &[
            Attribute {
                name: b"SubRequestToken",
                value: token.as_str().as_bytes(),
            },
            Attribute {
                name: b"ErrorCode",
                value: word,
            },
            Attribute {
                name: b"HResult",
                value: result_code(word),
            },
        ],
    )
}

/// Adds what is said of a subrequest.
#[tactic(auto, unfolding(crate::specs::AnswerText::sub_text))]
pub(crate) fn append_sub(
    alloc: Global,
    out: &mut Vec<u8>,
    sub: &SubAsk,
    outcome: &Outcome,
) -> Result<(), NoMemory>
    ensures { OnOk result (out.new.items ≡ out.old.items ++ sub_text sub.now outcome.now) }
{
    append_sub_start(out, &sub.token, error_code(outcome))?;
    append_rest(alloc, out, outcome)
}
