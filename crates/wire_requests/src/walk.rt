// The first object of a type in a walk, parents before children.
ghost use Rattle.std.specs.Prelude.{◌≡◌, find};
ghost use Rattle.std.specs.Option.{option_copied};
ghost use Rattle.stream_objects.specs.Objects.{is_kind};
ghost use Rattle.doc_model.specs.wire.Walks.{below};
ghost use Rattle.wire_requests.specs.WalkReading.{first_of, first_among};

use stream_objects::{MOST_LEVELS, Tree};

// The first object of a type in a walk of this tree, down to so many levels.
#[tactic(auto, unfolding(crate::specs::WalkReading::first_of))]
fn first_of(levels: usize, kind: u16, tree: &Tree) -> Option<&Tree>
    ensures { option_copied result ≡ first_of levels kind tree.now }
{
    if levels == 0 {
        return None;
    }
    if tree.kind == kind {
        return Some(tree);
    }
    for child in tree.children.as_slice() {
        if let Some(found) = first_of(levels - 1, kind, child) {
            return Some(found);
        }
    }
    None
}

fn first_among(levels: usize, kind: u16, trees: &[Tree]) -> Option<&Tree>
    ensures { option_copied result ≡ first_among levels kind trees.now }
{
    for tree in trees {
        if let Some(found) = first_of(levels, kind, tree) {
            return Some(found);
        }
    }
    None
}

/// The first object of a type below this one, parents before children.
pub fn first_below(tree: &Tree, kind: u16) -> Option<&Tree>
    ensures { option_copied result ≡ find (is_kind kind) (below tree.now) }
{
    first_among(MOST_LEVELS, kind, tree.children.as_slice())
}
