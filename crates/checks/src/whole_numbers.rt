// Euclid and splits over whole numbers.
use crate::asked::{factor, halves, inverse, is_zero, refusal};
use integers::Integers;

#[test]
fn euclid_on_zero_and_units(rt: HostRuntime) {
    assert!(rt; is_zero(&Integers, 0, 7));
    assert!(rt; is_zero(&Integers, 14, 7));
    assert_eq!(rt; inverse(&Integers, 1, 7), Some(1));
    assert_eq!(rt; inverse(&Integers, 6, 7), Some(6));
    assert_eq!(rt; inverse(&Integers, 2, 7), Some(4));
    assert_eq!(rt; inverse(&Integers, 7, 30), Some(13));
}

#[test]
fn euclid_on_proper_factors(rt: HostRuntime) {
    assert_eq!(rt; factor(&Integers, 2, 6), Some(2));
    assert_eq!(rt; factor(&Integers, 9, 30), Some(3));
    assert_eq!(rt; factor(&Integers, 20, 30), Some(10));
    assert_eq!(rt; inverse(&Integers, 20, 30), None);
}

#[test]
fn euclid_at_the_largest_modulus(rt: HostRuntime) {
    assert!(rt; is_zero(&Integers, 2147483647, 2147483647));
    assert_eq!(rt; inverse(&Integers, 2, 2147483647), Some(1073741824));
    assert_eq!(rt;
        inverse(&Integers, 2147483646, 2147483647),
        Some(2147483646)
    );
    assert_eq!(rt;
        inverse(&Integers, 18446744073709551615, 2147483647),
        Some(1431655765)
    );
}

#[test]
fn moduli_are_refused_by_number(rt: HostRuntime) {
    assert_eq!(rt; refusal(&Integers, 0), Some(9));
    assert_eq!(rt; refusal(&Integers, 1), Some(9));
    assert_eq!(rt; refusal(&Integers, 2147483648), Some(9));
    assert_eq!(rt; refusal(&Integers, 12), Some(10));
    assert_eq!(rt; refusal(&Integers, 2), None);
    assert_eq!(rt; refusal(&Integers, 2147483647), None);
}

#[test]
fn halves_by_a_proper_factor_only(rt: HostRuntime) {
    assert_eq!(rt; halves(&Integers, 30, 6), Some((6, 5)));
    assert_eq!(rt; halves(&Integers, 30, 2), Some((2, 15)));
    assert_eq!(rt; halves(&Integers, 30, 1), None);
    assert_eq!(rt; halves(&Integers, 30, 0), None);
    assert_eq!(rt; halves(&Integers, 30, 4), None);
}
