ghost use Rattle.std.specs.Prelude.{◌≡◌, length, find, option_map, IfOk};
ghost use Rattle.std.specs.List.{position};
ghost use Rattle.doc_model.specs.rules.Editing.{is_editor, other_editors, edited, with_editor};

use compact_values::{Copied, Guid, NoMemory, Seq, Text};
use doc_model::{Editor, Editors};
use std::alloc::Global;

/// The editor of a client.
pub fn own_editor(editors: &[Editor], client: Guid) -> Option<&Editor>
    ensures { option_map (λ e. e.now) result ≡ find (is_editor client) editors.now }
{
    editors.iter().find(|e| e.client == client)
}

pub fn count_others(editors: &[Editor], client: Guid) -> usize
    ensures { result ≡ length (other_editors client editors.now) }
{
    editors.iter().filter(|e| e.client != client).count()
}

/// The editors but for the client.
pub fn others(alloc: Global, editors: Editors, client: Guid) -> Result<Editors, NoMemory>
    ensures { IfOk result (λ all. all ≡ other_editors client editors) }
{
    let mut all = Seq::new(alloc);
    for e in editors.into_vec() {
        if e.client != client {
            all.push(e)?;
        }
    }
    Ok(all)
}

fn place(editors: &[Editor], client: Guid) -> Option<usize>
    ensures { result ≡ position (is_editor client) editors.now }
{
    editors.iter().position(|e| e.client == client)
}

/// The editors with this one in place of the client's, if that is there.
pub fn replaced(editors: Editors, client: Guid, editor: Editor) -> Editors
    ensures { result ≡ edited client (λ x. editor) editors }
{
    match place(editors.as_slice(), client) {
        None => editors,
        Some(at) => {
            let mut all = editors.into_vec();
            all[at] = editor;
            Seq::from_vec(all)
        }
    }
}

/// The editors with the client there until then, at its place with its keys, or else at the end without any.
#[tactic(auto, using(crate::proofs::Edits::joins_new))]
pub fn with_editor(
    alloc: Global,
    editors: Editors,
    client: Guid,
    user: &Text,
    until: u64,
) -> Result<Editors, NoMemory>
    ensures { IfOk result (λ all. all ≡ with_editor client user.now until editors) }
{
    let user = user.copied(alloc)?;
    match own_editor(editors.as_slice(), client) {
        None => {
            let mut all = editors;
            all.push(Editor {
                client,
                user,
                until,
                entries: Seq::new(alloc),
            })?;
            Ok(all)
        }
        Some(own) => {
            let own = own.copied(alloc)?;
            Ok(replaced(editors, client, Editor { user, until, ..own }))
        }
    }
}
