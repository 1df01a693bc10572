//! Nodes as they are read (MS-FSSHTTPD 2.2): objects of type 1F or 20 with a signature 21 and a data size 22.

ghost use Rattle.std.specs.Prelude.{◌≡◌, ◌≢◌, IfOk, None, is_some, option_map};
ghost use Rattle.stream_objects.specs.declared.fault.TreeFault.TheVariants as faults;
ghost use Rattle.doc_model.specs.rules.Nodes.{only_fields, signature_said, size_said, is_node, size_of_node, node_size};

use compact_values::{NoMemory, take_item, take_long};
use std::alloc::Global;
use stream_objects::{
    Tree, TreeFault, compound_fields, object_types, only_child, read_tree, simple_fields,
};

// The fields of the only child of a type, where it is a simple object.
fn only_fields<'a>(bytes: &'a [u8], tree: &Tree, kind: u16) -> Option<&'a [u8]>
    ensures { option_map (λ f. f.now) result ≡ only_fields bytes.now kind tree.now }
{
    simple_fields(bytes, only_child(tree, kind)?)
}

// Whether there is one signature, a binary item.
fn has_signature(bytes: &[u8], tree: &Tree) -> bool
    ensures { result ≡ is_some (signature_said bytes.now tree.now) }
{
    let Some(fields) = only_fields(bytes, tree, object_types::SIGNATURE) else {
        return false;
    };
    match take_item(fields) {
        Some((_, rest)) => rest.is_empty(),
        None => false,
    }
}

// The data size: 8 bytes, the least first.
fn size_said(bytes: &[u8], tree: &Tree) -> Option<u64>
    ensures { result ≡ size_said bytes.now tree.now }
{
    let fields = only_fields(bytes, tree, object_types::DATA_SIZE)?;
    let (size, rest) = take_long(fields)?;
    if rest.is_empty() { Some(size) } else { None }
}

// Whether it is a compound object of a node's type, without fields.
fn is_node(bytes: &[u8], tree: &Tree) -> bool
    ensures { result ≡ is_node bytes.now tree.now }
{
    (tree.kind == object_types::INTERMEDIATE_NODE || tree.kind == object_types::ROOT_NODE)
        && match compound_fields(bytes, tree) {
            Some([]) => true,
            _ => false,
        }
}

// The data size of a node.
fn size_of_node(bytes: &[u8], tree: &Tree) -> Option<u64>
    ensures { result ≡ size_of_node bytes.now tree.now }
{
    if is_node(bytes, tree) && has_signature(bytes, tree) {
        size_said(bytes, tree)
    } else {
        None
    }
}

// What follows where the bytes are no tree.
fn no_tree(fault: TreeFault) -> Result<Option<u64>, NoMemory>
    ensures { IfOk result (λ size. (size ≡ None) × (fault ≢ faults.NoMemory)) }
{
    match fault {
        TreeFault::NoMemory => Err(NoMemory),
        _ => Ok(None),
    }
}

/// The data size of the node that the bytes are, as a whole.
pub(crate) fn node_size(alloc: Global, bytes: &[u8]) -> Result<Option<u64>, NoMemory>
    ensures { IfOk result (λ size. size ≡ node_size bytes.now) }
{
    match read_tree(alloc, bytes, 0) {
        Ok((tree, next)) => {
            if next == bytes.len() {
                Ok(size_of_node(bytes, &tree))
            } else {
                Ok(None)
            }
        }
        Err(fault) => no_tree(fault),
    }
}
