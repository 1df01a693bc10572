// The bytes that a text means as base64 (RFC 4648).
ghost use Rattle.std.specs.Prelude.{◌≡◌, ◌<◌, ◌≤◌, ◌++◌, length, false, IfOk, OnOk};
ghost use Rattle.base64.specs.Engines.{standard};
ghost use Rattle.base64.specs.GeneralPurpose.{decode_of};
ghost use Rattle.envelope_read.specs.Base.{HasNo, when_ok, without_white, decoded};

use base64::DecodeAllocError;
use base64::engine::general_purpose::STANDARD;
use compact_values::{NoMemory, Octets, Text};
use memchr::{memchr, memchr3};
use std::alloc::Global;

/// The bytes that the engine reads. None where it refuses them.
fn by_engine(alloc: Global, bytes: &[u8]) -> Result<Option<Octets>, NoMemory>
    ensures { IfOk result (λ found. found ≡ when_ok (decode_of standard bytes.now)) }
{
    match STANDARD.decode(alloc, bytes) {
        Ok(bytes) => Ok(Some(Octets::from_vec(bytes))),
        Err(DecodeAllocError::OutOfMemory) => Err(NoMemory),
        Err(DecodeAllocError::DecodeError(_)) => Ok(None),
    }
}

/// Adds what stands before the first white byte, and gives what stands behind it. Tabs were looked for before.
fn add_line<'a>(kept: &mut Octets, bytes: &'a [u8]) -> Result<&'a [u8], NoMemory>
    requires some { 1 ≤ length bytes.now }
    requires no_tab { HasNo 9 bytes.now }
    ensures shorter { IfOk result (λ rest. length rest.now < length bytes.now) }
    ensures no_tab { IfOk result (λ rest. HasNo 9 rest.now) }
    ensures adds { IfOk result (λ rest. kept.new ++ without_white rest.now ≡ kept.old ++ without_white bytes.now) }
{
    match memchr3(b' ', b'\r', b'\n', bytes) {
        Some(at) => {
            kept.extend_from_slice(&bytes[..at])?;
            Ok(&bytes[at + 1..])
        }
        None => {
            kept.extend_from_slice(bytes)?;
            Ok(&bytes[bytes.len()..])
        }
    }
}

/// Adds the bytes but for the white ones, a line at a time. Tabs were looked for before.
fn add_lines(kept: &mut Octets, bytes: &[u8]) -> Result<(), NoMemory>
    requires { HasNo 9 bytes.now }
    ensures { OnOk result (kept.new ≡ kept.old ++ without_white bytes.now) }
{
    let mut rest = bytes;
    'lines: while !rest.is_empty() {
        rest = add_line(kept, rest)?;
    }
    Ok(())
}

/// Adds what stands before the first tab, but for white bytes, and gives what stands behind it.
fn add_before_tab<'a>(kept: &mut Octets, bytes: &'a [u8]) -> Result<&'a [u8], NoMemory>
    requires { 1 ≤ length bytes.now }
    ensures shorter { IfOk result (λ rest. length rest.now < length bytes.now) }
    ensures adds { IfOk result (λ rest. kept.new ++ without_white rest.now ≡ kept.old ++ without_white bytes.now) }
{
    match memchr(b'\t', bytes) {
        Some(at) => {
            add_lines(kept, &bytes[..at])?;
            Ok(&bytes[at + 1..])
        }
        None => {
            add_lines(kept, bytes)?;
            Ok(&bytes[bytes.len()..])
        }
    }
}

/// The bytes without white space, moved in runs. Tabs are looked for once in all of them, since lines are seldom ended by one.
fn without_white(alloc: Global, bytes: &[u8]) -> Result<Octets, NoMemory>
    ensures { IfOk result (λ kept. kept ≡ without_white bytes.now) }
{
    let Ok(room) = Vec::with_capacity(alloc, bytes.len()) else {
        return Err(NoMemory);
    };
    let mut kept = Octets::from_vec(room);
    let mut rest = bytes;
    'parts: while !rest.is_empty() {
        rest = add_before_tab(&mut kept, rest)?;
    }
    Ok(kept)
}

/// Whether white space stands in the bytes. Nearly all base64 is written without it, and is then read where it stands.
fn has_white(bytes: &[u8]) -> bool
    ensures { result ≡ false → without_white bytes.now ≡ bytes.now }
{
    match memchr3(b' ', b'\r', b'\n', bytes) {
        Some(_) => true,
        None => match memchr(b'\t', bytes) {
            Some(_) => true,
            None => false,
        },
    }
}

/// The bytes that these mean, white space dropped. None where the engine refuses them.
#[tactic(auto, unfolding(crate::specs::Base::decoded))]
pub(crate) fn decoded(alloc: Global, bytes: &[u8]) -> Result<Option<Octets>, NoMemory>
    ensures { IfOk result (λ found. found ≡ decoded bytes.now) }
{
    if has_white(bytes) {
        let kept = without_white(alloc, bytes)?;
        by_engine(alloc, kept.as_slice())
    } else {
        by_engine(alloc, bytes)
    }
}
