// The faults of objects in a request.
ghost use Rattle.std.specs.Prelude.{◌≡◌};
ghost use Rattle.stream_objects.specs.Objects.{start_of};
ghost use Rattle.data_elements.specs.declared.wire_fault.WireFault.TheVariants as faults;
ghost use Rattle.wire_requests.specs.RequestAnswers.{wire_fault};

use data_elements::{ElementFault, WireFault};
use stream_objects::Tree;

/// The object isn't in its form.
pub fn fault(tree: &Tree) -> WireFault
    ensures { result ≡ faults.SchemaFault (start_of tree.now) }
{
    WireFault::SchemaFault {
        place: tree.fields.from,
    }
}

/// The fault of a request whose elements or knowledge have this one.
pub fn wire_fault(fault: ElementFault) -> WireFault
    ensures { result ≡ wire_fault fault }
{
    match fault {
        ElementFault::SchemaFault { place } => WireFault::SchemaFault { place },
        ElementFault::TooMany => WireFault::TooMany,
        ElementFault::NoMemory => WireFault::NoMemory,
    }
}
