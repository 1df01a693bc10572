ghost use Rattle.std.specs.Prelude.{◌≡◌, length, IfOk};
ghost use Rattle.doc_model.specs.rules.Editing.{live_editors, is_alone};

use compact_values::{Copied, NoMemory, Seq};
use doc_model::{Editor, Editors};
use std::alloc::Global;

/// The editors at a moment, in seconds: without those that have expired.
pub fn live_editors(alloc: Global, editors: &Editors, moment: u64) -> Result<Editors, NoMemory>
    ensures { IfOk result (λ all. all ≡ live_editors editors.now moment) }
{
    let mut all = Seq::new(alloc);
    for e in editors.as_slice() {
        if moment < e.until {
            all.push(e.copied(alloc)?)?;
        }
    }
    Ok(all)
}

fn count_live(editors: &[Editor], moment: u64) -> usize
    ensures { result ≡ length (live_editors editors.now moment) }
{
    editors.iter().filter(|e| moment < e.until).count()
}

/// Whether at most one client edits the document at a moment, in seconds. It takes no memory.
pub fn is_alone(editors: &Editors, moment: u64) -> bool
    ensures { result ≡ is_alone editors.now moment }
{
    count_live(editors.as_slice(), moment) <= 1
}
