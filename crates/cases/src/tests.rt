//! Tests of what the table of cases cannot show.
use crate::spelling::bytes_of;
use counting::Parts;
use fault::Fault;
use sheet::{OpenedSheet, open};
use std::test::Fail;

/// Records are counted past 65,536, which no input of the bench can have.
#[test]
fn many_records(rt: HostRuntime) -> Result<(), Fail> {
    let bytes = bytes_of(rt.alloc(), " 10*70000 00")?;
    assert_eq!(rt; bytes.len(), 70001);
    let mut place = OpenedSheet::new(Parts::whole());
    assert!(rt;
        matches!(
            open(bytes.as_slice(), &mut place),
            Err(Fault::Unreadable(70000))
        )
    );
    Ok(())
}

/// Tokens, and the bytes that they spell.
#[test]
fn tokens(rt: HostRuntime) -> Result<(), Fail> {
    let heap = rt.alloc();
    let bytes = bytes_of(heap, " 09 Af*2 0102*0 1020*3")?;
    let spelled = [9, 175, 175, 16, 32, 16, 32, 16, 32];
    assert!(rt; bytes.as_slice() == &spelled[0..9]);
    Ok(())
}

/// Pieces that stand once, and up to more times than three turns of doubling give.
#[test]
fn repeated_tokens(rt: HostRuntime) -> Result<(), Fail> {
    let bytes = bytes_of(rt.alloc(), " 00 0102*1 03*2 0405*3 06*5 0708*8 09*9")?;
    let spelled = [
        0, 1, 2, 3, 3, 4, 5, 4, 5, 4, 5, 6, 6, 6, 6, 6, 7, 8, 7, 8, 7, 8, 7, 8, 7, 8, 7, 8, 7, 8,
        7, 8, 9, 9, 9, 9, 9, 9, 9, 9, 9,
    ];
    assert!(rt; bytes.as_slice() == &spelled[0..41]);
    Ok(())
}
