// Making keys, and what they answer.
use crate::other_key::Sevens;
use crate::refused::refusal;
use spread::estimating::{Code, EstimatingKey};
use spread::fault::{Layer, Numbered, SpreadFault};
use spread::flat::Flat;
use spread::key::Key;
use spread::last_week::LastWeek;
use spread::line::Line;
use spread::numbers::Numbers;
use spread::units::Metered;
use std::test::Fail;

#[test]
fn flat_keys(rt: HostRuntime) -> Result<(), Fail> {
    assert_eq!(rt; refusal(Flat::new(0)), 0);
    assert_eq!(rt; refusal(Flat::new(746)), 34);
    assert_eq!(rt; refusal(Flat::new(usize::MAX)), 34);
    let key = Flat::new(745)?;
    assert_eq!(rt; key.len(), 745);
    assert_eq!(rt; key.weight(0), 0);
    assert_eq!(rt; key.weight(1), 1);
    assert_eq!(rt; key.weight(745), 1);
    assert_eq!(rt; key.weight(746), 0);
    assert_eq!(rt; key.weight(usize::MAX), 0);
    Ok(())
}

#[test]
fn lists_as_keys(rt: HostRuntime) -> Result<(), Fail> {
    assert_eq!(rt; refusal(Numbers::new(&[])), 0);
    assert_eq!(rt; refusal(Numbers::new(&[1; 745])), 0);
    assert_eq!(rt; refusal(Numbers::new(&[1; 746])), 34);
    assert_eq!(rt; refusal(Numbers::new(&[0, 10_000_000_000])), 0);
    assert_eq!(rt; refusal(Numbers::new(&[0, 10_000_000_001])), 34);
    assert_eq!(rt; refusal(Numbers::new(&[u64::MAX])), 34);
    let key = Numbers::new(&[7, 0, 9])?;
    assert_eq!(rt; key.len(), 3);
    assert_eq!(rt; key.weight(0), 0);
    assert_eq!(rt; key.weight(1), 7);
    assert_eq!(rt; key.weight(3), 9);
    assert_eq!(rt; key.weight(4), 0);
    Ok(())
}

#[test]
fn lines_as_keys(rt: HostRuntime) -> Result<(), Fail> {
    assert_eq!(rt; refusal(Line::new(0, Metered(1), Metered(1))), 0);
    assert_eq!(rt;
        refusal(Line::new(8, Metered(2_000_000), Metered(2_000_000))),
        0
    );
    assert_eq!(rt; refusal(Line::new(9, Metered(1), Metered(1))), 34);
    assert_eq!(rt; refusal(Line::new(1, Metered(2_000_001), Metered(1))), 34);
    assert_eq!(rt; refusal(Line::new(1, Metered(1), Metered(2_000_001))), 34);
    assert_eq!(rt;
        refusal(Line::new(usize::MAX, Metered(u64::MAX), Metered(u64::MAX))),
        34
    );
    let none = Line::new(0, Metered(10), Metered(20))?;
    assert_eq!(rt; none.len(), 0);
    assert_eq!(rt; none.weight(1), 0);
    let key = Line::new(4, Metered(10), Metered(20))?;
    assert_eq!(rt; key.weight(0), 0);
    assert_eq!(rt; key.weight(1), 60);
    assert_eq!(rt; key.weight(4), 90);
    assert_eq!(rt; key.weight(5), 0);
    Ok(())
}

// The value at a place and the number of its code.
fn estimate<K: EstimatingKey>(key: &K, place: usize, known: bool) -> (Metered, u8) {
    let (value, code) = key.estimate(place, known);
    (value, code.into())
}

#[test]
fn line_estimates(rt: HostRuntime) -> Result<(), Fail> {
    let key = Line::new(4, Metered(10), Metered(20))?;
    assert_eq!(rt; estimate(&key, 1, false), (Metered(12), 1));
    assert_eq!(rt; estimate(&key, 2, false), (Metered(14), 1));
    assert_eq!(rt; estimate(&key, 3, true), (Metered(16), 3));
    assert_eq!(rt; estimate(&key, 4, true), (Metered(18), 3));
    assert_eq!(rt; estimate(&key, 5, false), (Metered(0), 1));
    Ok(())
}

#[test]
fn last_week_estimates(rt: HostRuntime) -> Result<(), Fail> {
    assert_eq!(rt; refusal(LastWeek::new(&[10_000_000_001])), 34);
    let key = LastWeek::new(&[5, 0, 8])?;
    assert_eq!(rt; key.len(), 3);
    assert_eq!(rt; estimate(&key, 1, false), (Metered(5), 2));
    assert_eq!(rt; estimate(&key, 3, true), (Metered(8), 4));
    assert_eq!(rt; estimate(&key, 4, true), (Metered(0), 4));
    Ok(())
}

#[test]
fn estimates_of_another_key(rt: HostRuntime) -> Result<(), Fail> {
    let key = Sevens {
        hours: Flat::new(2)?,
    };
    assert_eq!(rt; estimate(&key, 1, false), (Metered(7), 5));
    assert_eq!(rt; estimate(&key, 2, true), (Metered(7), 6));
    assert_eq!(rt; u8::from(Code::Other(0)), 0);
    assert_eq!(rt; u8::from(Code::Other(u8::MAX)), 255);
    Ok(())
}

#[test]
fn faults(rt: HostRuntime) {
    assert_eq!(rt; SpreadFault::Places.number(), 31);
    assert_eq!(rt; SpreadFault::TooLarge.number(), 32);
    assert_eq!(rt; SpreadFault::NoWeight.number(), 33);
    assert_eq!(rt; SpreadFault::NoKey.number(), 34);
    assert_eq!(rt; SpreadFault::NoKey.layer(), Layer::Spread);
}
