// Price times energy, size and sign, at the edges of 64 bits.
use spread::sign::Sign;
use spread::units::{Kwh, Money, Price};

#[test]
fn price_times_energy(rt: HostRuntime) {
    assert_eq!(rt; Price(5_000).times(Kwh(33)), Some(Money(165_000)));
    assert_eq!(rt;
        Price(-1_000_000).times(Kwh(2_980_000_000)),
        Some(Money(-2_980_000_000_000_000))
    );
    assert_eq!(rt; Price(0).times(Kwh(i64::MIN)), Some(Money(0)));
    assert_eq!(rt; Price(1).times(Kwh(i64::MIN)), Some(Money(i64::MIN)));
    assert_eq!(rt; Price(-1).times(Kwh(i64::MAX)), Some(Money(-i64::MAX)));
    assert_eq!(rt; Price(-1).times(Kwh(i64::MIN)), None);
    assert_eq!(rt; Price(2).times(Kwh(i64::MAX)), None);
    assert_eq!(rt; Price(i64::MIN).times(Kwh(i64::MIN)), None);
}

#[test]
fn size_and_sign(rt: HostRuntime) {
    assert_eq!(rt; Kwh(0).size(), 0);
    assert_eq!(rt; Kwh(0).sign(), Sign::Above);
    assert_eq!(rt; Kwh(-1).size(), 1);
    assert_eq!(rt; Kwh(-1).sign(), Sign::Below);
    assert_eq!(rt; Kwh(i64::MAX).size(), 9_223_372_036_854_775_807);
    assert_eq!(rt; Kwh(i64::MIN).size(), 9_223_372_036_854_775_808);
    assert_eq!(rt; Kwh(i64::MIN).sign(), Sign::Below);
}
