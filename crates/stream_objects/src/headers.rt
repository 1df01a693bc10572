ghost use Rattle.std.specs.Prelude.{◌≡◌, ◌≢◌, ◌≤◌, ◌+◌, ◌++◌, length, take, drop, OnOk, OnErr, Err};
ghost use Rattle.stream_objects.specs.Headers.{written_start, written_end};
ghost use Rattle.compact_values.specs.Compact.{little_endian, compact};
ghost use Rattle.compact_values.specs.Answers.{IsFoundAt, IsShortAt, IsOutOfFormAt};
ghost use Rattle.compact_values.specs.declared.fault.ValueFault.TheVariants as faults;
ghost use Rattle.compact_values.specs.Reading.{answer_at, number_of};
ghost use Rattle.stream_objects.specs.HeaderReading.{header_at, wide_start, at_header};
ghost use Rattle.stream_objects.specs.HeaderValues.{SpellsHeader};

use compact_values::{
    NoMemory, Octets, ValueFault, append_low_bytes, number_of, read_compact, write_compact,
};

/// Adds the start header of an object of type `kind` with `length` bytes of fields: the 16-bit form where it
/// has room, else the 32-bit form, with the length in a compact integer behind it from 32,767 on
/// (MS-FSSHTTPB 2.2.1.5.1 and 2.2.1.5.2). Without memory nothing is added.
pub fn start(out: &mut Octets, kind: u16, compound: bool, length: u64) -> Result<(), NoMemory>
    requires { kind ≤ 16383 }
    ensures ok { OnOk result (out.new ≡ out.old ++ written_start kind compound length) }
    ensures err { OnErr result (out.new ≡ out.old) }
{
    let bits = if compound { 4 } else { 0 } + 8 * kind as u64;
    if kind <= 0x3F && length <= 127 {
        append_low_bytes(out, bits + 512 * length, 2)
    } else if length < 32767 {
        append_low_bytes(out, 2 + bits + 131072 * length, 4)
    } else {
        append_large(out, 2 + bits + 131072 * 32767, length)
    }
}

/// Adds a header of 32 bits and the length behind it, or nothing.
fn append_large(out: &mut Octets, header: u64, length: u64) -> Result<(), NoMemory>
    ensures ok { OnOk result (out.new ≡ out.old ++ (little_endian 4 header ++ compact length)) }
    ensures err { OnErr result (out.new ≡ out.old) }
{
    let before = out.len();
    append_low_bytes(out, header, 4)?;
    match write_compact(out, length) {
        Ok(()) => Ok(()),
        Err(NoMemory) => {
            out.truncate(before);
            Err(NoMemory)
        }
    }
}

/// Adds the end header of a compound object of type `kind`: the 8-bit form where it has room, else the 16-bit
/// form (MS-FSSHTTPB 2.2.1.5.3 and 2.2.1.5.4). Without memory nothing is added.
pub fn finish(out: &mut Octets, kind: u16) -> Result<(), NoMemory>
    requires { kind ≤ 16383 }
    ensures ok { OnOk result (out.new ≡ out.old ++ written_end kind) }
    ensures err { OnErr result (out.new ≡ out.old) }
{
    if kind <= 0x3F {
        append_low_bytes(out, 1 + 4 * kind as u64, 1)
    } else {
        append_low_bytes(out, 3 + 4 * kind as u64, 2)
    }
}

/// A header that was read.
#[derive(Clone, Copy, Debug, PartialEq, Eq)]
pub enum Header {
    Start {
        kind: u16,
        compound: bool,
        length: u64,
    },
    End {
        kind: u16,
    },
}

/// Reads the header at a place from left to right.
#[tactic(auto, unfolding(crate::specs::HeaderReading::header_at))]
fn header_at(bytes: &[u8], at: usize) -> Result<(Header, usize), ValueFault>
    requires { at ≤ length bytes.now }
    ensures { result ≡ answer_at (length bytes.now) at (header_at (drop at bytes.now)) }
{
    let rest = &bytes[at..];
    let short = ValueFault::Short { place: bytes.len() };
    let Some(first) = rest.first() else {
        return Err(short);
    };
    match first % 4 {
        0 => {
            if rest.len() < 2 {
                return Err(short);
            }
            let number = number_of(&rest[..2]);
            let header = Header::Start {
                kind: (number / 8 % 64) as u16,
                compound: number / 4 % 2 == 1,
                length: number / 512,
            };
            Ok((header, at + 2))
        }
        1 => Ok((
            Header::End {
                kind: (first / 4) as u16,
            },
            at + 1,
        )),
        2 => {
            if rest.len() < 4 {
                return Err(short);
            }
            wide_start(bytes, at)
        }
        _ => {
            if rest.len() < 2 {
                return Err(short);
            }
            let number = number_of(&rest[..2]);
            Ok((
                Header::End {
                    kind: (number / 4) as u16,
                },
                at + 2,
            ))
        }
    }
}

/// Reads a start of 32 bits, and the length behind it where there is one.
fn wide_start(bytes: &[u8], at: usize) -> Result<(Header, usize), ValueFault>
    requires { at + 4 ≤ length bytes.now }
    ensures { result ≡ answer_at (length bytes.now) at (wide_start (number_of (take 4 (drop at bytes.now))) (drop 4 (drop at bytes.now))) }
{
    let number = number_of(&bytes[at..at + 4]);
    let kind = (number / 8 % 16384) as u16;
    let compound = number / 4 % 2 == 1;
    let length = number / 131072;
    if length != 32767 {
        return Ok((
            Header::Start {
                kind,
                compound,
                length,
            },
            at + 4,
        ));
    }
    match read_compact(bytes, at + 4) {
        Ok((length, next)) => Ok((
            Header::Start {
                kind,
                compound,
                length,
            },
            next,
        )),
        Err(fault) => Err(at_header(fault, at)),
    }
}

/// A length that is out of form makes its header so.
fn at_header(fault: ValueFault, at: usize) -> ValueFault
    ensures { result ≡ at_header fault at }
{
    match fault {
        ValueFault::OutOfForm { place: _ } => ValueFault::OutOfForm { place: at },
        other => other,
    }
}

/// Reads the header at a place, and gives the place after it: what `header_at` computes, in the words of the spellings.
pub fn read_header(bytes: &[u8], at: usize) -> Result<(Header, usize), ValueFault>
    requires { at ≤ length bytes.now }
    ensures found { IsFoundAt SpellsHeader bytes.now at result }
    ensures short { IsShortAt SpellsHeader bytes.now at result }
    ensures out_of_form { IsOutOfFormAt SpellsHeader bytes.now at result }
    ensures memory { result ≢ Err faults.NoMemory }
{
    header_at(bytes, at)
}
