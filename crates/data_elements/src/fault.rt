ghost use Rattle.std.specs.Prelude.{◌≡◌};
ghost use Rattle.stream_objects.specs.Objects.{start_of};

use stream_objects::Tree;
use thiserror::Error;

/// Why objects are no package, or no knowledge.
#[derive(Clone, Copy, Debug, PartialEq, Eq, Error)]
pub enum ElementFault {
    /// An object isn't in its form. Its fields start at `place`.
    #[error("an object out of form at byte {place}")]
    SchemaFault { place: usize },
    /// There are more than 8,192 elements.
    #[error("too many data elements")]
    TooMany,
    /// No memory was left.
    #[error("no memory")]
    NoMemory,
}

/// The object isn't in its form.
pub fn fault(tree: &Tree) -> ElementFault
    ensures { result ≡ ElementFault.SchemaFault (start_of tree.now) }
{
    ElementFault::SchemaFault {
        place: tree.fields.from,
    }
}
