//! What is written stands in its form, and is read as the same again: the written bytes spell a tree, and each tree that they
//! spell says just what was written. Each is the contract of a function that does nothing. The numbers are in the ranges of
//! their fields, and a tree has at most 262,144 objects.

ghost use Rattle.std.specs.Prelude.{ℕ, ◌+◌, ◌*◌, ◌≤◌, List, length, map};
ghost use Rattle.std.specs.List.{AllByRecursion};
ghost use Rattle.compact_values.specs.Ids.{FitsGuid, FitsSerial};
ghost use Rattle.compact_values.specs.declared.guid.Guid.{Guid};
ghost use Rattle.compact_values.specs.declared.ids.Serial.{Serial};
ghost use Rattle.doc_model.specs.wire.Elements.{IsElementWith, IsPackage};
ghost use Rattle.doc_model.specs.wire.Knowledges.{IsKnowledge};
ghost use Rattle.doc_model.specs.wire.FittingElements.{FitsElement, FitsNumbered, FitsRange};
ghost use Rattle.doc_model.specs.rules.Weights.{objects_written, package_objects, weight_of};
ghost use Rattle.doc_model.specs.wire.WrittenElements.{element_bytes, package_bytes, knowledge_bytes};
ghost use Rattle.doc_model.specs.declared.element.Element.{Element};
ghost use Rattle.doc_model.specs.declared.element.NumberedElement.{NumberedElement};
ghost use Rattle.doc_model.specs.declared.knowledge.Knowledge.{Knowledge};
ghost use Rattle.stream_objects.specs.Trees.{IsTreeAt};
ghost use Rattle.stream_objects.specs.declared.tree.Tree.{Tree};
ghost use Rattle.data_elements.specs.StandsAs.{StandsAs};
ghost use Rattle.doc_model.specs.rules.Limits.{most_objects};

/// An element of any kind, with its serial number.
pub fn written_element()
    ensures { (e : Element) (s : Serial) → FitsElement e → FitsSerial s → objects_written e ≤ most_objects → StandsAs (element_bytes e s) (λ t. IsElementWith (element_bytes e s) t s e) }
{}

/// A package: its elements in order.
pub fn written_package()
    ensures { (guid : Guid) (ns : List NumberedElement) → FitsGuid guid → AllByRecursion FitsNumbered ns → package_objects ns ≤ most_objects → StandsAs (package_bytes guid ns) (λ t. IsPackage (package_bytes guid ns) t (map (λ m. m.element) ns)) }
{}

/// The elements of a package are written in at most five bytes for each four in which they were read: only the counts of
/// references may take more bytes than before.
pub fn hardly_longer()
    ensures { (input : List ℕ) (t : Tree) (from next : ℕ) (es : List Element) → IsTreeAt input t from next → IsPackage input t es → 4 * weight_of es + 5 * from ≤ 5 * next }
{}

/// Knowledge: its ranges in order.
pub fn written_knowledge()
    ensures { (k : Knowledge) → AllByRecursion FitsRange k.ranges → 3 + length k.ranges ≤ most_objects → StandsAs (knowledge_bytes k) (λ t. IsKnowledge (knowledge_bytes k) t k) }
{}
