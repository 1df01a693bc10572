// The objects of a group: declarations and data, which belong together in pairs.
ghost use Rattle.std.specs.Prelude.{◌≡◌, ◌||◌, [], map, filter, IfOk, option_map};
ghost use Rattle.stream_objects.specs.Objects.{is_kind, start_of};
ghost use Rattle.doc_model.specs.wire.Groups.{declarations_in, data_in};
ghost use Rattle.data_elements.specs.Answers.{Gives};
ghost use Rattle.data_elements.specs.Checking.{collect_from, or_broken};
ghost use Rattle.data_elements.specs.Rows.{data_row, reference_row};
ghost use Rattle.data_elements.specs.GroupReading.{carrier_at, same_id, carrier_agrees, carriers_agree, declaration_at, inline_object, apart_object, object_at, objects_from, objects_at, halves_agree, group_at};
ghost use Rattle.stream_objects.specs.declared.object_types.TheConstants.{OBJECT_GROUP_OBJECT_BLOB_DATA_DECLARATION, OBJECT_GROUP_OBJECT_DATA, OBJECT_GROUP_OBJECT_DATA_BLOB_REFERENCE, OBJECT_GROUP_OBJECT_DECLARE};

use crate::check::check;
use crate::collect::own;
use crate::fault::{ElementFault, fault};
use crate::members::{data_row, declaration_row, declared_row, reference_row};
use compact_values::{ExGuid, NoMemory, Seq};
use doc_model::{Body, Content, Object, Objects};
use std::alloc::Global;
use stream_objects::{Tree, object_types, only_child};

type Carriers = Seq<Carrier>;

type Declarations = Seq<Declaration>;

/// Where a declaration or data say that an object's content is.
#[derive(Clone, Copy, Debug, PartialEq, Eq)]
pub enum Carrier {
    /// With the object.
    Inline,
    /// In this blob.
    Apart { blob: ExGuid },
    /// In a blob, but the fields that name it are not in form.
    Unread,
}

/// What a declaration says of an object besides its blob.
#[derive(Clone, Copy, Debug, PartialEq, Eq)]
pub struct Declaration {
    pub id: ExGuid,
    pub partition: u64,
    pub size: u64,
}

/// The blob that a declaration or data name.
#[tactic(auto, unfolding(crate::specs::GroupReading::carrier_at))]
fn carrier_at(alloc: Global, bytes: &[u8], tree: &Tree) -> Result<Carrier, NoMemory>
    ensures { IfOk result (λ carrier. carrier ≡ carrier_at bytes.now tree.now) }
{
    match tree.kind {
        object_types::OBJECT_GROUP_OBJECT_BLOB_DATA_DECLARATION => match declared_row(bytes, tree) {
            Some((_id, (blob, _sizes))) => Ok(Carrier::Apart { blob }),
            None => Ok(Carrier::Unread),
        },
        object_types::OBJECT_GROUP_OBJECT_DATA_BLOB_REFERENCE => match reference_row(
            alloc, bytes, tree,
        )? {
            Some((_references, (_cells, blob))) => Ok(Carrier::Apart { blob }),
            None => Ok(Carrier::Unread),
        },
        _ => Ok(Carrier::Inline),
    }
}

/// The carriers of the objects of two types, in order.
fn carriers(
    alloc: Global,
    bytes: &[u8],
    trees: &[Tree],
    first: u16,
    second: u16,
) -> Result<Carriers, NoMemory>
    ensures { IfOk result (λ carriers. carriers ≡ map (carrier_at bytes.now) (filter (λ c. is_kind first c || is_kind second c) trees.now)) }
{
    let mut carriers = Seq::new(alloc);
    for tree in trees {
        if tree.kind == first || tree.kind == second {
            carriers.push(carrier_at(alloc, bytes, tree)?)?;
        }
    }
    Ok(carriers)
}

fn same_id(a: ExGuid, b: ExGuid) -> bool
    ensures { result ≡ same_id a b }
{
    match a {
        ExGuid::Null => match b {
            ExGuid::Null => true,
            ExGuid::Id { .. } => false,
        },
        ExGuid::Id { guid, value } => match b {
            ExGuid::Null => false,
            ExGuid::Id {
                guid: other,
                value: number,
            } => guid.number == other.number && value == number,
        },
    }
}

/// Whether a declaration and data belong together, as far as they are in form.
fn carrier_agrees(declaration: Carrier, held: Carrier) -> bool
    ensures { result ≡ carrier_agrees declaration held }
{
    match declaration {
        Carrier::Inline => match held {
            Carrier::Inline => true,
            Carrier::Apart { .. } => false,
            Carrier::Unread => false,
        },
        Carrier::Apart { blob } => match held {
            Carrier::Inline => false,
            Carrier::Apart { blob: named } => same_id(blob, named),
            Carrier::Unread => true,
        },
        Carrier::Unread => match held {
            Carrier::Inline => false,
            Carrier::Apart { .. } => true,
            Carrier::Unread => true,
        },
    }
}

/// Whether there are as many of the one as of the other, and the k-th of each belong together.
fn carriers_agree(declarations: &[Carrier], held: &[Carrier]) -> bool
    ensures { result ≡ carriers_agree declarations.now held.now }
{
    let mut left = held;
    for declaration in declarations {
        match left {
            [] => return false,
            [first, rest @ ..] => {
                if !carrier_agrees(*declaration, *first) {
                    return false;
                }
                left = rest;
            }
        }
    }
    left.is_empty()
}

/// Whether the two halves of a group belong together.
fn halves_agree(
    alloc: Global,
    bytes: &[u8],
    declarations: &Tree,
    held: &Tree,
) -> Result<bool, NoMemory>
    ensures { IfOk result (λ agree. agree ≡ halves_agree bytes.now declarations.now held.now) }
{
    let declared = carriers(
        alloc,
        bytes,
        declarations.children.as_slice(),
        object_types::OBJECT_GROUP_OBJECT_DECLARE,
        object_types::OBJECT_GROUP_OBJECT_BLOB_DATA_DECLARATION,
    )?;
    let named = carriers(
        alloc,
        bytes,
        held.children.as_slice(),
        object_types::OBJECT_GROUP_OBJECT_DATA,
        object_types::OBJECT_GROUP_OBJECT_DATA_BLOB_REFERENCE,
    )?;
    Ok(carriers_agree(declared.as_slice(), named.as_slice()))
}

#[tactic(auto, unfolding(crate::specs::GroupReading::declaration_at))]
fn declaration_at(bytes: &[u8], tree: &Tree) -> Option<Declaration>
    ensures { result ≡ declaration_at bytes.now tree.now }
{
    if tree.kind == object_types::OBJECT_GROUP_OBJECT_DECLARE {
        let (id, (partition, size)) = declaration_row(bytes, tree)?;
        Some(Declaration {
            id,
            partition,
            size,
        })
    } else {
        let (id, (_blob, (partition, size))) = declared_row(bytes, tree)?;
        Some(Declaration {
            id,
            partition,
            size,
        })
    }
}

/// The declarations among these objects, in order.
fn read_declarations(
    alloc: Global,
    bytes: &[u8],
    trees: &[Tree],
) -> Result<Declarations, ElementFault>
    ensures { Gives result (collect_from declaration_at bytes.now [] (filter (λ c. is_kind OBJECT_GROUP_OBJECT_DECLARE c || is_kind OBJECT_GROUP_OBJECT_BLOB_DATA_DECLARATION c) trees.now)) }
{
    let mut declarations = Seq::new(alloc);
    for tree in trees {
        if tree.kind == object_types::OBJECT_GROUP_OBJECT_DECLARE
            || tree.kind == object_types::OBJECT_GROUP_OBJECT_BLOB_DATA_DECLARATION
        {
            match declaration_at(bytes, tree) {
                Some(declaration) => match declarations.push(declaration) {
                    Ok(()) => {}
                    Err(NoMemory) => return Err(ElementFault::NoMemory),
                },
                None => return Err(fault(tree)),
            }
        }
    }
    Ok(declarations)
}

/// An object whose bytes stand with it.
fn inline_object(
    alloc: Global,
    bytes: &[u8],
    declaration: Declaration,
    tree: &Tree,
) -> Result<Object, ElementFault>
    ensures { Gives result (or_broken (start_of tree.now) (option_map (inline_object declaration) (data_row bytes.now tree.now))) }
{
    match data_row(alloc, bytes, tree) {
        Ok(Some(found)) => {
            let (references, (cells, content)) = found;
            let bytes = own(alloc, content)?;
            Ok(Object {
                id: declaration.id,
                partition: declaration.partition,
                size: declaration.size,
                references,
                cells,
                content: Content::Inline { bytes },
            })
        }
        Ok(None) => Err(fault(tree)),
        Err(NoMemory) => Err(ElementFault::NoMemory),
    }
}

/// An object whose bytes are in a blob.
fn apart_object(
    alloc: Global,
    bytes: &[u8],
    declaration: Declaration,
    tree: &Tree,
) -> Result<Object, ElementFault>
    ensures { Gives result (or_broken (start_of tree.now) (option_map (apart_object declaration) (reference_row bytes.now tree.now))) }
{
    match reference_row(alloc, bytes, tree) {
        Ok(Some(found)) => {
            let (references, (cells, blob)) = found;
            Ok(Object {
                id: declaration.id,
                partition: declaration.partition,
                size: declaration.size,
                references,
                cells,
                content: Content::Apart { blob },
            })
        }
        Ok(None) => Err(fault(tree)),
        Err(NoMemory) => Err(ElementFault::NoMemory),
    }
}

/// The object of a declaration and its data.
#[tactic(auto, unfolding(crate::specs::GroupReading::object_at))]
fn read_object(
    alloc: Global,
    bytes: &[u8],
    declaration: Declaration,
    tree: &Tree,
) -> Result<Object, ElementFault>
    ensures { Gives result (or_broken (start_of tree.now) (object_at bytes.now declaration tree.now)) }
{
    if tree.kind == object_types::OBJECT_GROUP_OBJECT_DATA {
        inline_object(alloc, bytes, declaration, tree)
    } else {
        apart_object(alloc, bytes, declaration, tree)
    }
}

/// The objects of these declarations and of the data among these objects, in order.
fn read_objects(
    alloc: Global,
    bytes: &[u8],
    declarations: &[Declaration],
    trees: &[Tree],
) -> Result<Objects, ElementFault>
    ensures { Gives result (objects_from bytes.now [] declarations.now (filter (λ c. is_kind OBJECT_GROUP_OBJECT_DATA c || is_kind OBJECT_GROUP_OBJECT_DATA_BLOB_REFERENCE c) trees.now)) }
{
    let mut objects = Seq::new(alloc);
    let mut left = declarations;
    for tree in trees {
        if tree.kind == object_types::OBJECT_GROUP_OBJECT_DATA
            || tree.kind == object_types::OBJECT_GROUP_OBJECT_DATA_BLOB_REFERENCE
        {
            match left {
                [] => return Err(fault(tree)),
                [next, rest @ ..] => {
                    let object = read_object(alloc, bytes, *next, tree)?;
                    match objects.push(object) {
                        Ok(()) => {}
                        Err(NoMemory) => return Err(ElementFault::NoMemory),
                    }
                    left = rest;
                }
            }
        }
    }
    Ok(objects)
}

/// The objects of the two halves.
fn objects_at(
    alloc: Global,
    bytes: &[u8],
    declarations: &Tree,
    held: &Tree,
) -> Result<Objects, ElementFault>
    ensures { Gives result (objects_at bytes.now declarations.now held.now) }
{
    let declared = read_declarations(alloc, bytes, declarations.children.as_slice())?;
    read_objects(alloc, bytes, declared.as_slice(), held.children.as_slice())
}

/// The objects of a group. The element isn't in its form where its halves don't belong together.
#[tactic(auto, unfolding(crate::specs::GroupReading::group_at))]
pub fn read_group(alloc: Global, bytes: &[u8], tree: &Tree) -> Result<Body, ElementFault>
    ensures { Gives result (group_at bytes.now tree.now) }
{
    let Some(declarations) = only_child(tree, object_types::OBJECT_GROUP_DECLARATIONS) else {
        return Err(fault(tree));
    };
    let Some(held) = only_child(tree, object_types::OBJECT_GROUP_DATA) else {
        return Err(fault(tree));
    };
    match halves_agree(alloc, bytes, declarations, held) {
        Ok(true) => {}
        Ok(false) => return Err(fault(tree)),
        Err(NoMemory) => return Err(ElementFault::NoMemory),
    }
    check(alloc, bytes, 5, tree.children.as_slice())?;
    let objects = objects_at(alloc, bytes, declarations, held)?;
    Ok(Body::Group { objects })
}
