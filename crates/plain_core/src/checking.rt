// Whether the elements of an upload may be added.
ghost use Rattle.std.specs.Prelude.{◌≡◌, ◌++◌, option_copied};
ghost use Rattle.std.specs.List.{list_any};
ghost use Rattle.doc_model.specs.rules.Puts.{is_foreign, differs, is_invalid};
ghost use Rattle.plain_core.specs.Cataloging.{listed};

use crate::catalog::Catalog;
use compact_values::{ExGuid, Guid, Same};
use doc_model::Element;

fn is_foreign(guid: Guid, drawn: u64, id: ExGuid) -> bool
    ensures { result ≡ is_foreign guid drawn id }
{
    match id {
        ExGuid::Null => true,
        ExGuid::Id { guid: own, value } => own.is(guid) && drawn < u64::from(value),
    }
}

// Whether it says something else than the one with its id.
fn differs(known: Option<&Element>, element: &Element) -> bool
    ensures { result ≡ differs (option_copied known.entry) element.now }
{
    match known {
        None => false,
        Some(known) => !known.body.same(&element.body),
    }
}

fn is_invalid(guid: Guid, drawn: u64, catalog: &Catalog<'_>, element: &Element) -> bool
    ensures { result ≡ is_invalid guid drawn (listed catalog.now) element.now }
{
    is_foreign(guid, drawn, element.id) || differs(catalog.find(element.id), element)
}

/// Whether one of the elements has an id that nobody may use, or says something else than the one with its id.
pub fn any_invalid(guid: Guid, drawn: u64, catalog: &Catalog<'_>, elements: &[Element]) -> bool
    ensures { result ≡ list_any (is_invalid guid drawn (listed catalog.now)) elements.now }
{
    elements
        .iter()
        .any(|element| is_invalid(guid, drawn, catalog, element))
}
