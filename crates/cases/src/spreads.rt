// Spreading, above zero and below, at the edges, and refused.
use crate::refused::refusal;
use spread::cursor::Cursor;
use spread::flat::Flat;
use spread::numbers::Numbers;
use spread::spreading::spread;
use spread::units::Kwh;
use std::test::Fail;

#[test]
fn added_and_taken_off(rt: HostRuntime) -> Result<(), Fail> {
    let key = Flat::new(3)?;
    let mut parts = [Kwh(0); 3];
    assert_eq!(rt; refusal(spread(&key, Kwh(100), &mut parts)), 0);
    assert_eq!(rt; parts, [Kwh(33), Kwh(33), Kwh(34)]);
    assert_eq!(rt; refusal(spread(&key, Kwh(-100), &mut parts)), 0);
    assert_eq!(rt; parts, [Kwh(-33), Kwh(-33), Kwh(-34)]);
    Ok(())
}

#[test]
fn refused_in_order(rt: HostRuntime) -> Result<(), Fail> {
    let flat = Flat::new(3)?;
    let zeros = Numbers::new(&[0, 0])?;
    let mut two = [Kwh(8), Kwh(9)];
    assert_eq!(rt; refusal(spread(&flat, Kwh(i64::MIN), &mut two)), 31);
    assert_eq!(rt; refusal(spread(&zeros, Kwh(1), &mut [])), 31);
    assert_eq!(rt; refusal(spread(&zeros, Kwh(1), &mut two)), 33);
    assert_eq!(rt; refusal(spread(&zeros, Kwh(i64::MAX), &mut two)), 33);
    assert_eq!(rt; two, [Kwh(8), Kwh(9)]);
    assert_eq!(rt; refusal(spread(&zeros, Kwh(0), &mut two)), 0);
    assert_eq!(rt; two, [Kwh(0), Kwh(0)]);
    Ok(())
}

#[test]
fn size_limit(rt: HostRuntime) -> Result<(), Fail> {
    let key = Numbers::new(&[4, 5])?;
    let mut parts = [Kwh(7), Kwh(7)];
    assert_eq!(rt;
        refusal(spread(&key, Kwh(1_000_000_000_000_000_001), &mut parts)),
        32
    );
    assert_eq!(rt;
        refusal(spread(&key, Kwh(-1_000_000_000_000_000_001), &mut parts)),
        32
    );
    assert_eq!(rt; refusal(spread(&key, Kwh(i64::MAX), &mut parts)), 32);
    assert_eq!(rt; refusal(spread(&key, Kwh(i64::MIN), &mut parts)), 32);
    assert_eq!(rt; parts, [Kwh(7), Kwh(7)]);
    assert_eq!(rt;
        refusal(spread(&key, Kwh(-1_000_000_000_000_000_000), &mut parts)),
        0
    );
    assert_eq!(rt;
        parts,
        [Kwh(-444_444_444_444_444_444), Kwh(-555_555_555_555_555_556)]
    );
    Ok(())
}

#[test]
fn full_month(rt: HostRuntime) -> Result<(), Fail> {
    let key = Flat::new(745)?;
    let mut parts = [Kwh(9); 745];
    assert_eq!(rt; refusal(spread(&key, Kwh(-744), &mut parts)), 0);
    assert_eq!(rt; parts[0], Kwh(0));
    assert_eq!(rt; parts[1], Kwh(-1));
    assert_eq!(rt; parts[744], Kwh(-1));
    Ok(())
}

#[test]
fn empty_key(rt: HostRuntime) -> Result<(), Fail> {
    let key = Flat::new(0)?;
    assert_eq!(rt; refusal(spread(&key, Kwh(0), &mut [])), 0);
    assert_eq!(rt; refusal(spread(&key, Kwh(1), &mut [])), 33);
    assert_eq!(rt; refusal(spread(&key, Kwh(0), &mut [Kwh(1)])), 31);
    Ok(())
}

#[test]
fn cursor_past_the_end(rt: HostRuntime) -> Result<(), Fail> {
    let key = Flat::new(2)?;
    let mut cursor = Cursor::new(&key, Kwh(-5))?;
    assert_eq!(rt; cursor.next_part(&key), Kwh(-2));
    assert_eq!(rt; cursor.next_part(&key), Kwh(-3));
    assert_eq!(rt; cursor.next_part(&key), Kwh(0));
    Ok(())
}

#[test]
fn cursor_tells_its_place(rt: HostRuntime) -> Result<(), Fail> {
    let key = Flat::new(745)?;
    let mut cursor = Cursor::new(&key, Kwh(745))?;
    assert_eq!(rt; cursor.place(), 0);
    assert_eq!(rt; cursor.next_part(&key), Kwh(1));
    assert_eq!(rt; cursor.place(), 1);
    for _ in 0..745 {
        cursor.next_part(&key);
    }
    assert_eq!(rt; cursor.place(), 745);
    Ok(())
}

#[test]
fn cursor_with_another_key(rt: HostRuntime) -> Result<(), Fail> {
    let key = Flat::new(2)?;
    let heavy = Numbers::new(&[10_000_000_000, 1])?;
    let mut cursor = Cursor::new(&key, Kwh(5))?;
    assert_eq!(rt; cursor.next_part(&heavy), Kwh(5));
    assert_eq!(rt; cursor.next_part(&key), Kwh(0));
    Ok(())
}
