//! The first look at a sheet: all its records can be read, and stand in order.
ghost use Rattle.std.specs.Prelude.{◌≡◌, ◌+◌, ◌^◌, ◌<◌, false, List, [], ◌∷◌, ◌++◌};
ghost use Rattle.sheet.specs.Order.{class_of, nothing, misplaced, after, Seen, Scanned};
ghost use Rattle.records.specs.declared.record.Record.{Record};

use crate::census::{Census, Class, Scan};
use fault::Fault;
use records::record::{Record, read};

/// What a record is to the order. A function and no `From`: it forgets what the record says, and its contract reads more
/// plainly than a member of a trait.
pub fn class(given: Record) -> Class
    ensures { result ≡ class_of given }
{
    match given {
        Record::Head { .. } => Class::Head,
        Record::Pure | Record::Public => Class::Plain,
        Record::Channel { .. } => Class::Channel,
        Record::Entry { .. } => Class::Entry,
        Record::Name { .. } => Class::Name,
        _ => Class::Node,
    }
}

impl Census {
    /// Before the first record.
    pub fn new() -> Census
        ensures { result ≡ nothing }
    {
        Census::default()
    }

    /// Whether a record of this class stands wrongly, or is one too many, after these.
    pub fn misplaces(&self, kind: Class) -> bool
        ensures { result ≡ misplaced self.now kind }
    {
        match kind {
            Class::Head => self.heads > 0,
            Class::Plain | Class::Channel => {
                self.heads == 0 || self.names > 0 || self.nodes > 0 || self.types >= 64
            }
            Class::Entry => self.room == 0,
            Class::Name => self.heads == 0 || self.nodes > 0 || self.names >= 64,
            Class::Node => self.heads == 0 || self.nodes >= 1024,
        }
    }

    /// What stands there with one record more, which does not stand wrongly.
    fn with(&self, kind: Class) -> Census
        requires { misplaced self.now kind ≡ false }
        ensures { result ≡ after self.now kind }
    {
        match kind {
            Class::Head => Census {
                heads: self.heads + 1,
                room: 0,
                ..*self
            },
            Class::Plain => Census {
                types: self.types + 1,
                room: 0,
                ..*self
            },
            Class::Channel => Census {
                types: self.types + 1,
                room: 8,
                ..*self
            },
            Class::Entry => Census {
                room: self.room - 1,
                ..*self
            },
            Class::Name => Census {
                names: self.names + 1,
                room: 0,
                ..*self
            },
            Class::Node => Census {
                nodes: self.nodes + 1,
                room: 0,
                ..*self
            },
        }
    }
}

impl Scan {
    /// The scan with one record more.
    fn with(&self, given: Record) -> Scan
        requires { self.now.place + 1 < 2 ^ 64 }
        ensures place { result.place ≡ self.now.place + 1 }
        ensures seen { (rs : List Record) → Seen rs self.now → Seen (rs ++ given ∷ []) result }
    {
        // Counted here and not by an iterator, as in `fill`: reading ends where the bytes are no record.
        let place = self.place + 1;
        let kind = class(given);
        if self.wrong.is_some() {
            return Scan { place, ..*self };
        }
        if self.census.misplaces(kind) {
            return Scan {
                place,
                wrong: Some(self.place),
                ..*self
            };
        }
        Scan {
            place,
            wrong: None,
            census: self.census.with(kind),
        }
    }
}

/// Reads all records. Refuses where what is left is no record, then where one stands wrongly or no node is there;
/// else answers how many there are of each.
pub fn scan(bytes: &[u8]) -> Result<Census, Fault>
    ensures { Scanned bytes.now result }
{
    let mut seen = Scan {
        place: 0,
        wrong: None,
        census: Census::new(),
    };
    let mut left = bytes;
    while !left.is_empty() {
        let Some((next, rest)) = read(left) else {
            return Err(Fault::Unreadable(seen.place));
        };
        seen = seen.with(next);
        left = rest;
    }
    match seen.wrong {
        Some(place) => Err(Fault::WrongOrder(place)),
        None if seen.census.nodes == 0 => Err(Fault::WrongOrder(seen.place)),
        None => Ok(seen.census),
    }
}
