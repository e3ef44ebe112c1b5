//! Whether the names that a node sends or receives have the types that its channel requires.
ghost use Rattle.std.specs.Prelude.{◌≡◌, length, Decides, slice_index};
ghost use Rattle.calculus.specs.Types.{SameType, required};
ghost use Rattle.tables.specs.Elements.{elements};
ghost use Rattle.tables.specs.Encoding.{parts};
ghost use Rattle.sheet.specs.Tree.{node_at};
ghost use Rattle.meaning.specs.Failures.{FirstFailure};
ghost use Rattle.meaning.specs.Types.{types_of};
ghost use Rattle.meaning.specs.Uses.{ArgumentsFit, TypesFit};

use crate::equal::Comparison;
use crate::lookup::{number_at, type_at};
use counting::Counting;
use sheet::OpenedSheet;
use tables::tables::{Node, SheetType};
use tables::tuple::Tuple;

/// The first node that sends or receives a name that has not the required type, or none.
pub(crate) fn first_mistyped<C: Counting>(sheet: &OpenedSheet<C>) -> Option<usize>
    ensures { FirstFailure (λ n. TypesFit (C.Counting.operations sheet.now.counting) (types_of sheet.now.tables) (node_at (elements sheet.now.tables.nodes) n)) (length (elements sheet.now.tables.nodes)) result }
{
    let nodes = sheet.as_tables().nodes.as_slice();
    nodes.iter().position(|node| !types_fit(sheet, node))
}

/// Whether each name that the node sends or receives has the required type.
fn types_fit<C: Counting>(sheet: &OpenedSheet<C>, node: &Node) -> bool
    ensures { Decides result (TypesFit (C.Counting.operations sheet.now.counting) (types_of sheet.now.tables) node.now) }
{
    match node {
        Node::Send { channel, names } | Node::Receive { channel, names, .. } => {
            arguments_fit(sheet, *channel, *names)
        }
        _ => true,
    }
}

/// Whether each of the names has the type that the channel requires at its place.
fn arguments_fit<C: Counting>(sheet: &OpenedSheet<C>, channel: u8, names: Tuple<u8>) -> bool
    ensures { Decides result (ArgumentsFit (C.Counting.operations sheet.now.counting) (types_of sheet.now.tables) channel (parts names)) }
{
    (0..names.count()).all(|place| argument_fits(sheet, channel, names, place))
}

/// Whether the name at a place has the type that the channel requires there.
fn argument_fits<C: Counting>(
    sheet: &OpenedSheet<C>,
    channel: u8,
    names: Tuple<u8>,
    place: usize,
) -> bool
    ensures { Decides result (SameType (C.Counting.operations sheet.now.counting) (types_of sheet.now.tables (slice_index (parts names) place)) (required (types_of sheet.now.tables channel) (parts names) place)) }
{
    let tables = sheet.as_tables();
    let types = tables.types.as_slice();
    let own = tables.type_number(number_at(&names, place));
    match type_at(types, tables.type_number(usize::from(channel))) {
        SheetType::Pure => is_pure(&type_at(types, own)),
        SheetType::Public => is_public(&type_at(types, own)),
        SheetType::Channel(found) => {
            let earlier = names.first(place);
            let component = number_at(&found.components, place);
            Comparison::new(sheet.as_counting(), types, &earlier).is_same(1, own, component)
        }
    }
}

/// Whether a type is pure. A pattern and no `==`: the table of a channel's entries cannot be compared.
fn is_pure(given: &SheetType) -> bool
    ensures { Decides result (given.now ≡ SheetType.Pure) }
{
    matches!(given, SheetType::Pure)
}

/// Whether a type is public, by a pattern too.
fn is_public(given: &SheetType) -> bool
    ensures { Decides result (given.now ≡ SheetType.Public) }
{
    matches!(given, SheetType::Public)
}
