//! Records: what the bytes of a sheet are cut into.
ghost use Rattle.std.specs.Prelude.{◌≡◌, ◌++◌, MatchOption};
ghost use Rattle.records.specs.Records.{codes, Unreadable, NoRecord};

/// Four bytes as they stand in a record; those that are not used stand last and hold 255, and the count is a byte beside
/// them. Both are the file's: what they mean, a tuple, is made of them later.
#[derive(Clone, Copy, PartialEq, Eq, Debug)]
pub struct Quad(pub u8, pub u8, pub u8, pub u8);

/// A record with the fields of its body, in the order of the bytes. They are the file's numbers as they stand there, the
/// code of a counting among them: what they mean is found out later.
#[derive(Clone, Copy, PartialEq, Eq, Debug)]
pub enum Record {
    Head {
        edition: u8,
        code: u8,
        full: u32,
    },
    Name {
        sort: u8,
    },
    Pure,
    Public,
    Channel {
        count: u8,
        components: Quad,
    },
    Entry {
        amount: u32,
        items: Quad,
    },
    Stop,
    Send {
        channel: u8,
        count: u8,
        names: Quad,
    },
    Receive {
        channel: u8,
        count: u8,
        names: Quad,
        next: u16,
    },
    Both {
        first: u16,
        second: u16,
    },
    Copy {
        next: u16,
    },
    New {
        name: u8,
        next: u16,
    },
    Test {
        left: u8,
        right: u8,
        same: u16,
        other: u16,
    },
    Begin {
        names: Quad,
        next: u16,
    },
    End {
        names: Quad,
        next: u16,
    },
}

/// The first record of `bytes` and what follows it, or none where no record stands in front.
pub fn read(bytes: &[u8]) -> Option<(Record, &[u8])>
    ensures { MatchOption result (Unreadable bytes.now) (λ x. codes x.0 ++ x.1.now ≡ bytes.now) }
{
    match bytes {
        [1, edition, code, f0, f1, f2, f3, rest @ ..] => {
            let full = u32::from_le_bytes([*f0, *f1, *f2, *f3]);
            Some((
                Record::Head {
                    edition: *edition,
                    code: *code,
                    full,
                },
                rest,
            ))
        }
        [2, sort, rest @ ..] => Some((Record::Name { sort: *sort }, rest)),
        [3, rest @ ..] => Some((Record::Pure, rest)),
        [4, rest @ ..] => Some((Record::Public, rest)),
        [5, count, a, b, c, d, rest @ ..] => {
            Some((
                Record::Channel {
                    count: *count,
                    components: Quad(*a, *b, *c, *d),
                },
                rest,
            ))
        }
        [6, a0, a1, a2, a3, a, b, c, d, rest @ ..] => {
            let amount = u32::from_le_bytes([*a0, *a1, *a2, *a3]);
            Some((
                Record::Entry {
                    amount,
                    items: Quad(*a, *b, *c, *d),
                },
                rest,
            ))
        }
        _ => read_node(bytes),
    }
}

/// The record of kind 16 or above, a node, in front of `bytes` and what follows it, or none where no such stands in front.
fn read_node(bytes: &[u8]) -> Option<(Record, &[u8])>
    ensures { MatchOption result (NoRecord 16 bytes.now) (λ x. codes x.0 ++ x.1.now ≡ bytes.now) }
{
    match bytes {
        [16, rest @ ..] => Some((Record::Stop, rest)),
        [17, channel, count, a, b, c, d, rest @ ..] => {
            Some((
                Record::Send {
                    channel: *channel,
                    count: *count,
                    names: Quad(*a, *b, *c, *d),
                },
                rest,
            ))
        }
        [18, channel, count, a, b, c, d, n0, n1, rest @ ..] => {
            let next = u16::from_le_bytes([*n0, *n1]);
            Some((
                Record::Receive {
                    channel: *channel,
                    count: *count,
                    names: Quad(*a, *b, *c, *d),
                    next,
                },
                rest,
            ))
        }
        [19, f0, f1, s0, s1, rest @ ..] => {
            let first = u16::from_le_bytes([*f0, *f1]);
            let second = u16::from_le_bytes([*s0, *s1]);
            Some((Record::Both { first, second }, rest))
        }
        _ => read_step(bytes),
    }
}

/// The record of kind 20 or above in front of `bytes` and what follows it, or none where no such stands in front.
fn read_step(bytes: &[u8]) -> Option<(Record, &[u8])>
    ensures { MatchOption result (NoRecord 20 bytes.now) (λ x. codes x.0 ++ x.1.now ≡ bytes.now) }
{
    match bytes {
        [20, n0, n1, rest @ ..] => {
            let next = u16::from_le_bytes([*n0, *n1]);
            Some((Record::Copy { next }, rest))
        }
        [21, name, n0, n1, rest @ ..] => {
            let next = u16::from_le_bytes([*n0, *n1]);
            Some((Record::New { name: *name, next }, rest))
        }
        [22, left, right, s0, s1, o0, o1, rest @ ..] => {
            let same = u16::from_le_bytes([*s0, *s1]);
            let other = u16::from_le_bytes([*o0, *o1]);
            Some((
                Record::Test {
                    left: *left,
                    right: *right,
                    same,
                    other,
                },
                rest,
            ))
        }
        [23, a, b, c, d, n0, n1, rest @ ..] => {
            let next = u16::from_le_bytes([*n0, *n1]);
            Some((
                Record::Begin {
                    names: Quad(*a, *b, *c, *d),
                    next,
                },
                rest,
            ))
        }
        [24, a, b, c, d, n0, n1, rest @ ..] => {
            let next = u16::from_le_bytes([*n0, *n1]);
            Some((
                Record::End {
                    names: Quad(*a, *b, *c, *d),
                    next,
                },
                rest,
            ))
        }
        _ => None,
    }
}
