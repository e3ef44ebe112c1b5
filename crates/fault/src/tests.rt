//! Tests of the table of refusals.
use crate::fault::{Fault, Layer};
use crate::items::Items;
use crate::label::Label;

/// The label of those refusals below that are about an amount.
const LABEL: Label<u8> = Label {
    items: Items::Two(3, 7),
};

/// Every refusal, with its layer and its place.
const TABLE: [(Fault, Layer, usize); 22] = [
    (Fault::Unreadable(41), Layer::Sheet, 41),
    (Fault::WrongOrder(42), Layer::Sheet, 42),
    (Fault::OutOfRange(43), Layer::Sheet, 43),
    (Fault::NotATree(44), Layer::Sheet, 44),
    (Fault::OutOfScope(45), Layer::Sheet, 45),
    (Fault::BadType(46), Layer::Sheet, 46),
    (Fault::FewRows, Layer::Judge, 0),
    (Fault::FreeNotPublic(48), Layer::Judge, 48),
    (Fault::IllFormed(49), Layer::Judge, 49),
    (Fault::BadChannel(50), Layer::Judge, 50),
    (Fault::WrongType(51), Layer::Judge, 51),
    (
        Fault::Escapes {
            node: 52,
            label: LABEL,
            amount: 2,
        },
        Layer::Judge,
        52,
    ),
    (
        Fault::NotCopyable {
            node: 53,
            label: LABEL,
            amount: 2,
        },
        Layer::Judge,
        53,
    ),
    (
        Fault::RootOwes {
            label: LABEL,
            amount: 2,
        },
        Layer::Judge,
        0,
    ),
    (Fault::NoSuchThread(55), Layer::Run, 55),
    (Fault::Mismatch(56), Layer::Run, 56),
    (Fault::PoolFull(57), Layer::Run, 57),
    (Fault::ValuesFull(58), Layer::Run, 58),
    (Fault::NoRoom(59), Layer::Run, 59),
    (Fault::NotCovered(60), Layer::Run, 60),
    (Fault::Unknown(61), Layer::Run, 61),
    (Fault::SmallLedger, Layer::Run, 0),
];

/// The numbers run from 1 to 22 in the order of the table; layer and place are the table's; and 12 to 14 tell the
/// label and the amount.
#[test]
fn every_refusal(rt: HostRuntime) {
    for (i, (fault, layer, place)) in TABLE.iter().enumerate() {
        let number = usize::from(fault.number());
        assert_eq!(rt; number, i + 1);
        assert_eq!(rt; fault.layer(), *layer);
        assert_eq!(rt; fault.place(), *place);
        let expected = if number >= 12 && number <= 14 {
            Some((LABEL, 2))
        } else {
            None
        };
        assert_eq!(rt; fault.amiss(), expected);
    }
}
