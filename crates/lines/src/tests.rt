//! Tests of the lines and of the choice of a counting.
use crate::choice::{Chosen, choose};
use crate::lines::{opened_line, refused_line};
use counting::Counting;
use fault::{Fault, Items, Label};
use std::test::Fail;

/// A refusal of each layer, with and without an amount.
#[test]
fn refused_lines(rt: HostRuntime) -> Result<(), Fail> {
    let heap = rt.alloc();
    let order = refused_line(heap, &Fault::WrongOrder(0))?;
    assert_eq!(rt; order.as_str(), "FAIL sheet 2 0\n");
    let one = Label {
        items: Items::One(0),
    };
    let root = refused_line(
        heap,
        &Fault::RootOwes {
            label: one,
            amount: 2,
        },
    )?;
    assert_eq!(rt; root.as_str(), "FAIL judge 14 0 0 2\n");
    let three = Label {
        items: Items::Three(3, 7, 7),
    };
    let bound = refused_line(
        heap,
        &Fault::Escapes {
            node: 12,
            label: three,
            amount: 100000,
        },
    )?;
    assert_eq!(rt; bound.as_str(), "FAIL judge 12 12 3.7.7 100000\n");
    let thread = refused_line(heap, &Fault::NoSuchThread(70000))?;
    assert_eq!(rt; thread.as_str(), "FAIL run 15 70000\n");
    Ok(())
}

/// A sheet that opens.
#[test]
fn opened_lines(rt: HostRuntime) -> Result<(), Fail> {
    let line = opened_line(rt.alloc(), 1024)?;
    assert_eq!(rt; line.as_str(), "OPEN 1024\n");
    Ok(())
}

/// Heads, and the full right of the parts that they choose.
const HEADS: [([u8; 7], u32); 6] = [
    ([1, 1, 0, 2, 0, 0, 0], 2),
    ([1, 1, 0, 160, 134, 1, 0], 100000),
    ([1, 1, 0, 161, 134, 1, 0], 1),
    ([1, 1, 0, 0, 0, 0, 0], 1),
    ([1, 1, 1, 2, 0, 0, 0], 1),
    ([2, 1, 1, 1, 0, 0, 0], 1),
];

/// A head chooses the counting that it asks for, or parts with a full right of 1 where that cannot be made.
#[test]
fn choices(rt: HostRuntime) -> Result<(), Fail> {
    for (head, full) in HEADS.iter() {
        let Chosen::Parts(parts) = choose(head) else {
            return Err(Fail::new("once was not asked for"));
        };
        assert_eq!(rt; parts.full_right(), *full);
    }
    assert!(rt; matches!(choose(&[1, 1, 1, 1, 0, 0, 0]), Chosen::Once(_)));
    Ok(())
}
