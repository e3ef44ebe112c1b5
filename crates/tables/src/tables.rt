//! The tables of a sheet: its types, names and nodes, with every field in its own form.
ghost use Rattle.std.specs.Prelude.{◌≡◌, [], length, slice_index_or};
ghost use Rattle.tables.specs.Elements.{elements};
ghost use Rattle.tables.specs.Encoding.{parts};
ghost use Rattle.tables.specs.Channels.{components, entries};
ghost use Rattle.std.proofs.Common.{rules};

use crate::share::Share;
use crate::table::Table;
use crate::tuple::Tuple;
use fault::{Exact, Items, Label};

/// An item of an entry's label: a name of the sheet, or a place in a message. Index `position` (from 1) under no
/// arrow is that argument of the type's own channel, and under u arrows that of the channel u levels further out.
#[derive(Clone, Copy, PartialEq, Eq, Debug)]
pub enum Item {
    Name(u8),
    Index { arrows: u8, position: u8 },
}

impl Exact for Item {
    ghost exact = { Prim.search rules };
}

/// What a message on a channel carries of one right.
pub type Entry = Share<Item>;

/// A channel: the types of what a message carries (by their numbers), and the rights that go with a message.
#[derive(Clone, Copy)]
pub struct ChannelType {
    pub components: Tuple<u8>,
    pub entries: Table<Entry, 8>,
}

/// The type of a name: pure (nothing is sent on it), public (any unit on the bus may know it), or a channel.
#[derive(Clone, Copy)]
pub enum SheetType {
    Pure,
    Public,
    Channel(ChannelType),
}

/// A node of the process, with the numbers of the nodes that go on from it.
#[derive(Clone, Copy)]
pub enum Node {
    /// Nothing more.
    Stop,
    /// Sends names on a channel.
    Send {
        channel: u8,
        names: Tuple<u8>,
    },
    /// Receives names on a channel, and binds them.
    Receive {
        channel: u8,
        names: Tuple<u8>,
        next: u16,
    },
    /// Two processes side by side.
    Both {
        first: u16,
        second: u16,
    },
    /// As many copies of a process as are wanted.
    Copy {
        next: u16,
    },
    /// Makes a fresh value for a name, and binds it.
    New {
        name: u8,
        next: u16,
    },
    /// Goes on at `same` where two names have one value, else at `other`.
    Test {
        left: u8,
        right: u8,
        same: u16,
        other: u16,
    },
    /// Begins a full right on a label.
    Begin {
        label: Label<u8>,
        next: u16,
    },
    /// Uses up a full right on a label.
    End {
        label: Label<u8>,
        next: u16,
    },
}

/// The tables of a sheet. Types, names and nodes are numbered from 0; a name is held as the number of its type. The
/// numbers are the file's own, and lists of fixed room hold what they number, since nothing here may allocate.
#[derive(Clone, Copy)]
pub struct Tables {
    pub types: Table<SheetType, 64>,
    pub names: Table<u8, 64>,
    pub nodes: Table<Node, 1024>,
}

/// No entries, in a table of as many as a channel may have.
pub fn no_entries() -> Table<Entry, 8>
    ensures { elements result ≡ [] }
{
    let unused = Entry {
        label: Label {
            items: Items::One(Item::Name(0)),
        },
        amount: 0,
    };
    Table::new(unused)
}

impl Tables {
    /// Tables of nothing.
    pub fn new() -> Tables
        ensures { (elements result.types ≡ []) × (elements result.names ≡ []) × (elements result.nodes ≡ []) }
    {
        Tables {
            types: Table::new(SheetType::Pure),
            names: Table::new(0),
            nodes: Table::new(Node::Stop),
        }
    }

    /// The number of a name's type; one past the last type where there is no such name. A number and no `Option`: past the
    /// last type every reader finds the pure one, so that each would unwrap it into that number.
    pub fn type_number(&self, name: usize) -> usize
        ensures { result ≡ slice_index_or (elements self.now.names) name (length (elements self.now.types)) }
    {
        let found = self.names.as_slice().get(name);
        found.map_or(self.types.len(), |number| usize::from(*number))
    }
}

impl SheetType {
    /// The components of a channel, by their numbers; any other type has none.
    pub fn components(&self) -> Tuple<u8>
        ensures { parts result ≡ components self.now }
    {
        match self {
            SheetType::Channel(channel) => channel.components,
            _ => Tuple(None),
        }
    }

    /// The entries of a channel; any other type has none.
    pub fn entries(&self) -> &[Entry]
        ensures { result.now ≡ entries self.now }
    {
        match self {
            SheetType::Channel(channel) => channel.entries.as_slice(),
            _ => &[],
        }
    }
}
