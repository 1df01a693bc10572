// What a program holds of elements has its numbers in the ranges of their fields, and its lists are shorter than a length can
// tell. Each of these reads a value, which shows that it is so, and does nothing.
ghost use Rattle.std.specs.List.{All, AllByRecursion};
ghost use Rattle.doc_model.specs.wire.FittingElements.{FitsContent, FitsObject, FitsBody, FitsElement};
ghost use Rattle.change_record.specs.Sizes.{IsShortObject, IsShortBody};

use compact_values::{CellId, ExGuid, Guid};
use doc_model::{
    Body, CellMap, Content, Element, ManifestMap, Object, RevisionMap, RevisionRoot, Root,
};
use wire_kinds::Encode;

/// A type whose values always have a place in a field of their kind.
pub trait InRange: Encode + Copy {
    /// This one has a place in a field of its kind.
    fn in_range(self)
        ensures { Self.kind.Fits self };
}

impl InRange for Guid {
    fn in_range(self) {}
}

impl InRange for ExGuid {
    fn in_range(self) {}
}

impl InRange for CellId {
    fn in_range(self) {}
}

impl InRange for ManifestMap {
    fn in_range(self) {}
}

impl InRange for CellMap {
    fn in_range(self) {}
}

impl InRange for RevisionMap {
    fn in_range(self) {}
}

impl InRange for Root {
    fn in_range(self) {}
}

impl InRange for RevisionRoot {
    fn in_range(self) {}
}

fn are_in_range<T: InRange>(values: &[T])
    ensures { AllByRecursion T.kind.Fits values.now }
{
    for value in values {
        value.in_range();
    }
}

fn fits_content(content: &Content)
    ensures { FitsContent content.now }
{
    match content {
        Content::Inline { bytes } => {
            let _length = bytes.len();
        }
        Content::Apart { blob } => blob.in_range(),
    }
}

fn fits_object(object: &Object)
    requires { IsShortObject object.now }
    ensures { FitsObject object.now }
{
    object.id.in_range();
    let _partition = object.partition;
    let _size = object.size;
    let _references = object.references.len();
    are_in_range(object.references.as_slice());
    let _cells = object.cells.len();
    are_in_range(object.cells.as_slice());
    fits_content(&object.content);
}

fn fits_objects(objects: &[Object])
    requires { All IsShortObject objects.now }
    ensures { AllByRecursion FitsObject objects.now }
{
    for object in objects {
        fits_object(object);
    }
}

fn fits_body(body: &Body)
    requires { IsShortBody body.now }
    ensures { FitsBody body.now }
{
    match body {
        Body::Index {
            manifests,
            cells,
            revisions,
        } => {
            are_in_range(manifests.as_slice());
            are_in_range(cells.as_slice());
            are_in_range(revisions.as_slice());
        }
        Body::Storage { schema, roots } => {
            schema.in_range();
            are_in_range(roots.as_slice());
        }
        Body::Cell { current } => current.in_range(),
        Body::Revision {
            id,
            base,
            roots,
            groups,
        } => {
            id.in_range();
            base.in_range();
            are_in_range(roots.as_slice());
            are_in_range(groups.as_slice());
        }
        Body::Group { objects } => fits_objects(objects.as_slice()),
        Body::Blob { .. } => {}
    }
}

fn fits_element(element: &Element)
    requires { IsShortBody element.now.body }
    ensures { FitsElement element.now }
{
    element.id.in_range();
    fits_body(&element.body);
}

/// Elements fit whose objects are shorter than a length can tell.
pub fn fits_elements(elements: &[Element])
    requires { All (λ e. IsShortBody e.body) elements.now }
    ensures { AllByRecursion FitsElement elements.now }
{
    for element in elements {
        fits_element(element);
    }
}
