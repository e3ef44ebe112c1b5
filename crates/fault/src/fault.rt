//! Refusals.
ghost use Rattle.std.specs.Prelude.{◌≡◌};
ghost use Rattle.fault.specs.Faults.{number_of, layer_of, place_of, amiss_of};

use crate::label::Label;

/// The layer that says no.
#[derive(Clone, Copy, PartialEq, Eq, Debug)]
pub enum Layer {
    Sheet,
    Judge,
    Run,
}

/// A refusal, with its place. What a place counts is said with each.
#[derive(Clone, Copy, PartialEq, Eq, Debug)]
pub enum Fault {
    /// A record is cut off or has an unknown kind (place: the record).
    Unreadable(usize),
    /// A record stands in the wrong order or is one too many, or one is missing (place: the record, or their count).
    WrongOrder(usize),
    /// A field is out of range, or the head does not fit the counting (place: the record).
    OutOfRange(usize),
    /// A node is not a child just once, or has a child not above it (place: the record).
    NotATree(usize),
    /// A node binds a name already bound, or uses one out of scope (place: the record).
    OutOfScope(usize),
    /// A type has a label twice, or is nested too deep (place: the record).
    BadType(usize),
    /// Too few work rows (place: 0).
    FewRows,
    /// A free name is not public (place: the name).
    FreeNotPublic(usize),
    /// A bound name's type is not well formed (place: the name).
    IllFormed(usize),
    /// The channel of a send or receive is pure, or has another count (place: the node).
    BadChannel(usize),
    /// An argument or a received name is not of the required type (place: the node).
    WrongType(usize),
    /// The effect names a name that is bound there (place: the node).
    Escapes {
        node: usize,
        label: Label<u8>,
        amount: u32,
    },
    /// At a copy, an amount joined with itself differs (place: the node).
    NotCopyable {
        node: usize,
        label: Label<u8>,
        amount: u32,
    },
    /// The root's effect is not empty (place: 0).
    RootOwes {
        label: Label<u8>,
        amount: u32,
    },
    /// There is no thread, or it is at another kind of node (place: the thread).
    NoSuchThread(usize),
    /// Values or counts differ (place: the thread).
    Mismatch(usize),
    /// The pool of threads is full (place: the thread).
    PoolFull(usize),
    /// The table of values is full (place: the thread, or 0).
    ValuesFull(usize),
    /// The ledger has no room (place: the thread).
    NoRoom(usize),
    /// An end is not covered (place: the thread).
    NotCovered(usize),
    /// The outsider does not know a value (place: the thread).
    Unknown(usize),
    /// Too little memory for a ledger (place: 0).
    SmallLedger,
}

impl Fault {
    /// The number of the refusal.
    pub fn number(&self) -> u8
        ensures { result ≡ number_of self.now }
    {
        match self {
            Fault::Unreadable(_) => 1,
            Fault::WrongOrder(_) => 2,
            Fault::OutOfRange(_) => 3,
            Fault::NotATree(_) => 4,
            Fault::OutOfScope(_) => 5,
            Fault::BadType(_) => 6,
            Fault::FewRows => 7,
            Fault::FreeNotPublic(_) => 8,
            Fault::IllFormed(_) => 9,
            Fault::BadChannel(_) => 10,
            Fault::WrongType(_) => 11,
            Fault::Escapes { .. } => 12,
            Fault::NotCopyable { .. } => 13,
            Fault::RootOwes { .. } => 14,
            Fault::NoSuchThread(_) => 15,
            Fault::Mismatch(_) => 16,
            Fault::PoolFull(_) => 17,
            Fault::ValuesFull(_) => 18,
            Fault::NoRoom(_) => 19,
            Fault::NotCovered(_) => 20,
            Fault::Unknown(_) => 21,
            Fault::SmallLedger => 22,
        }
    }

    /// The layer that refuses by this number.
    pub fn layer(&self) -> Layer
        ensures { result ≡ layer_of self.now }
    {
        // By numbers, since the layers are ranges of them; the cases again, one by one, would be no plainer.
        match self.number() {
            0..=6 => Layer::Sheet,
            7..=14 => Layer::Judge,
            _ => Layer::Run,
        }
    }

    /// The place of the fault.
    pub fn place(&self) -> usize
        ensures { result ≡ place_of self.now }
    {
        match self {
            Fault::FewRows | Fault::RootOwes { .. } | Fault::SmallLedger => 0,
            Fault::Escapes { node, .. } | Fault::NotCopyable { node, .. } => *node,
            Fault::Unreadable(place)
            | Fault::WrongOrder(place)
            | Fault::OutOfRange(place)
            | Fault::NotATree(place)
            | Fault::OutOfScope(place)
            | Fault::BadType(place)
            | Fault::FreeNotPublic(place)
            | Fault::IllFormed(place)
            | Fault::BadChannel(place)
            | Fault::WrongType(place)
            | Fault::NoSuchThread(place)
            | Fault::Mismatch(place)
            | Fault::PoolFull(place)
            | Fault::ValuesFull(place)
            | Fault::NoRoom(place)
            | Fault::NotCovered(place)
            | Fault::Unknown(place) => *place,
        }
    }

    /// The first label at fault and its amount there, of those refusals that are about an amount.
    pub fn amiss(&self) -> Option<(Label<u8>, u32)>
        ensures { result ≡ amiss_of self.now }
    {
        match self {
            Fault::Escapes { label, amount, .. }
            | Fault::NotCopyable { label, amount, .. }
            | Fault::RootOwes { label, amount } => Some((*label, *amount)),
            _ => None,
        }
    }
}
