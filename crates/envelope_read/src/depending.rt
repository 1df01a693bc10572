// On which subrequest one depends (MS-FSSHTTP 2.2.3.x, DependsOn and DependencyType).
ghost use Rattle.std.specs.Prelude.{◌≡◌, IfOk};
ghost use Rattle.envelope_read.specs.Depending.{depend_word, depend_on, depend_from, depend_of};

use crate::collection::{Depend, DependWord};
use crate::lookup::{bytes_of, is, text_of};
use compact_values::{NoMemory, Text};
use envelope_grammar::Attribute;
use std::alloc::Global;

#[tactic(auto, unfolding(crate::specs::Depending::depend_word))]
fn depend_word(word: &[u8]) -> Option<DependWord>
    ensures { result ≡ depend_word word.now }
{
    if is(word, b"OnExecute") {
        return Some(DependWord::OnExecute);
    }
    if is(word, b"OnSuccess") {
        return Some(DependWord::OnSuccess);
    }
    if is(word, b"OnFail") {
        return Some(DependWord::OnFail);
    }
    if is(word, b"OnNotSupported") {
        return Some(DependWord::OnNotSupported);
    }
    if is(word, b"OnSuccessOrNotSupported") {
        return Some(DependWord::OnSuccessOrNotSupported);
    }
    None
}

fn depend_on(token: Text, word: Option<DependWord>) -> Depend
    ensures { result ≡ depend_on token word }
{
    match word {
        Some(word) => Depend::On { token, word },
        None => Depend::Bad,
    }
}

fn depend_from(token: Text, word: &[u8]) -> Depend
    ensures { result ≡ depend_from token (depend_word word.now) }
{
    if token.is_empty() {
        return Depend::Free;
    }
    depend_on(token, depend_word(word))
}

/// On which subrequest one with these attributes depends.
pub(crate) fn depend_of(alloc: Global, attributes: &[Attribute]) -> Result<Depend, NoMemory>
    ensures { IfOk result (λ depend. depend ≡ depend_of attributes.now) }
{
    let token = text_of(alloc, b"DependsOn", attributes)?;
    Ok(depend_from(token, bytes_of(b"DependencyType", attributes)))
}
