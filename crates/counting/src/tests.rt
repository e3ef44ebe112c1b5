//! Tests of the two countings at their limits.
use crate::Counting;
use crate::once::Once;
use crate::parts::Parts;
use fault::Fault;

/// Parts are joined by adding, up to the ceiling and not past it.
#[test]
fn parts_join_at_the_ceiling(rt: HostRuntime) {
    let parts = Parts::whole();
    assert_eq!(rt; parts.join(2, 3), Some(5));
    assert_eq!(rt; parts.join(999999999, 1), Some(1000000000));
    assert_eq!(rt; parts.join(1000000000, 0), Some(1000000000));
    assert_eq!(rt; parts.join(1000000000, 1), None);
    assert_eq!(rt; parts.join(4294967295, 4294967295), None);
}

/// What parts lack is what is left, and nothing where there is enough.
#[test]
fn parts_lack(rt: HostRuntime) {
    let parts = Parts::whole();
    assert_eq!(rt; parts.lack(5, 3), 2);
    assert_eq!(rt; parts.lack(3, 3), 0);
    assert_eq!(rt; parts.lack(3, 5), 0);
    assert_eq!(rt; parts.lack(5, 0), 5);
}

/// Once joins by the larger, and nothing is over 1.
#[test]
fn once_joins_and_lacks(rt: HostRuntime) {
    assert_eq!(rt; Once.join(0, 0), Some(0));
    assert_eq!(rt; Once.join(1, 1), Some(1));
    assert_eq!(rt; Once.join(0, 2), None);
    assert_eq!(rt; Once.lack(1, 0), 1);
    assert_eq!(rt; Once.lack(1, 1), 0);
}

/// A full right of 1 to 100,000 is taken, and any other is out of range at the head.
#[test]
fn full_rights(rt: HostRuntime) {
    assert_eq!(rt; Parts::new(0).err(), Some(Fault::OutOfRange(0)));
    assert_eq!(rt; Parts::new(1).err(), None);
    assert_eq!(rt; Parts::new(100000).err(), None);
    assert_eq!(rt; Parts::new(100001).err(), Some(Fault::OutOfRange(0)));
    assert_eq!(rt; Parts::whole().full_right(), 1);
}

/// The numbers of the two countings.
#[test]
fn numbers(rt: HostRuntime) {
    let parts = Parts::whole();
    assert_eq!(rt;
        (parts.code(), parts.largest_entry(), parts.ceiling()),
        (0, 100000, 1000000000)
    );
    assert_eq!(rt;
        (
            Once.code(),
            Once.full_right(),
            Once.largest_entry(),
            Once.ceiling(),
        ),
        (1, 1, 1, 1)
    );
}
