// The domain on examples, with those at the limits.
use crate::{BytePoly, BytePolyModulus, BytePolys};
use domains::Domain;
use std::test::Fail;

fn over(p: u8) -> Result<BytePolys, Fail> {
    Ok(BytePolys::new(p).ok().ok_or("p is refused")?)
}

fn modulo(d: BytePolys, w: u64) -> Result<BytePolyModulus, Fail> {
    Ok(d.modulus(w).ok_or("the word is no modulus")?)
}

fn zeros(d: BytePolys, pair: (BytePoly, BytePoly)) -> bool {
    d.is_zero(pair.0) && d.is_zero(pair.1)
}

#[test]
fn primes(rt: HostRuntime) -> Result<(), Fail> {
    assert!(rt; BytePolys::new(3).is_ok());
    assert!(rt; BytePolys::new(5).is_ok());
    assert!(rt; BytePolys::new(251).is_ok());
    for p in [1, 2, 4, 9, 253, 255] {
        let refusal = BytePolys::new(p).err().ok_or("p is not listed")?;
        assert_eq!(rt; u8::from(refusal.reason), 8);
        assert_eq!(rt; refusal.place, 0);
    }
    Ok(())
}

// Over GF(5): a byte from 5 on is reduced in a value, and refused in a modulus.
#[test]
fn words(rt: HostRuntime) -> Result<(), Fail> {
    let d = over(5)?;
    assert!(rt; !d.is_legal(1));
    assert!(rt; d.is_legal(0x0100));
    assert!(rt; !d.is_legal(0x0105));
    assert!(rt; !d.is_legal(0x0200));
    assert!(rt; d.is_legal(0x0100_0000_0000_0000));
    let m = modulo(d, 65537)?;
    assert_eq!(rt; d.word_of_modulus(m), 65537);
    assert_eq!(rt; d.word_of(d.residue(0x0807, m)), 0x0302);
    assert_eq!(rt; d.word_of(d.residue(0x0100_0000, m)), 0x0400);
    Ok(())
}

// The derivative of x^3 + 1 over GF(3) and of x^5 − 2 over GF(5) is 0.
#[test]
fn squarefree_words(rt: HostRuntime) -> Result<(), Fail> {
    let three = over(3)?;
    assert!(rt; three.is_legal(0x0100_0001));
    assert!(rt; !three.is_squarefree(0x0100_0001));
    assert!(rt; three.is_squarefree(0x0001_0001));
    let five = over(5)?;
    assert!(rt; five.is_legal(0x0100_0000_0003));
    assert!(rt; five.modulus(0x0100_0000_0003).is_none());
    Ok(())
}

// The largest p and degree: the square of x divides x^7 + x^2, and no square divides x^7 + 1.
#[test]
fn largest_moduli(rt: HostRuntime) -> Result<(), Fail> {
    let d = over(251)?;
    assert!(rt; d.is_legal(0x0100_0000_0001_0000));
    assert!(rt; !d.is_squarefree(0x0100_0000_0001_0000));
    let m = modulo(d, 0x0100_0000_0000_0001)?;
    assert_eq!(rt; d.word_of_modulus(m), 0x0100_0000_0000_0001);
    assert_eq!(rt; d.word_of(d.residue(0x0100_0000_0000_0000, m)), 250);
    Ok(())
}

// Over GF(5) modulo x^2 + 1.
#[test]
fn residues(rt: HostRuntime) -> Result<(), Fail> {
    let d = over(5)?;
    let m = modulo(d, 65537)?;
    let a = d.residue(0x0203, m);
    let b = d.residue(0x0304, m);
    assert_eq!(rt; d.word_of(d.add(a, b, m)), 0x0002);
    assert_eq!(rt; d.word_of(d.subtract(a, b, m)), 0x0404);
    assert_eq!(rt; d.word_of(d.multiply(a, b, m)), 0x0201);
    let (normal, unit) = d.normalize(a);
    assert_eq!(rt; d.word_of(normal), 0x0104);
    assert_eq!(rt; d.word_of(unit), 3);
    Ok(())
}

#[test]
fn quotients(rt: HostRuntime) -> Result<(), Fail> {
    let d = over(5)?;
    let m = modulo(d, 65537)?;
    let a = d.residue(0x0203, m);
    let zero = d.residue(0, m);
    let (quotient, remainder) = d.divide_modulus(m, a);
    assert_eq!(rt; d.word_of(quotient), 0x0303);
    assert_eq!(rt; d.word_of(remainder), 2);
    let (quotient, remainder) = d.divide(a, zero);
    assert!(rt; d.is_zero(quotient));
    assert_eq!(rt; d.word_of(remainder), 0x0203);
    Ok(())
}

#[test]
fn quotients_of_a_modulus_by_zero(rt: HostRuntime) -> Result<(), Fail> {
    let d = over(5)?;
    let m = modulo(d, 65537)?;
    let (quotient, remainder) = d.divide_modulus(m, d.residue(0, m));
    assert!(rt; d.is_zero(quotient));
    assert_eq!(rt; d.word_of(remainder), 65537);
    Ok(())
}

// A value over GF(7) in the domain over GF(5).
#[test]
fn foreign_values(rt: HostRuntime) -> Result<(), Fail> {
    let seven = over(7)?;
    let five = over(5)?;
    let m = modulo(seven, 65537)?;
    let n = modulo(five, 65537)?;
    let a = seven.residue(3, m);
    let b = five.residue(3, n);
    assert_eq!(rt; five.word_of(a), 0);
    assert!(rt; !five.is_zero(seven.residue(0, m)));
    assert_eq!(rt; five.word_of(five.add(a, b, n)), 0);
    assert_eq!(rt; five.word_of(five.residue(3, m)), 0);
    Ok(())
}

// A value and a modulus over GF(7), divided in the domain over GF(5).
#[test]
fn foreign_quotients(rt: HostRuntime) -> Result<(), Fail> {
    let seven = over(7)?;
    let five = over(5)?;
    let m = modulo(seven, 65537)?;
    let n = modulo(five, 65537)?;
    let a = seven.residue(3, m);
    let b = five.residue(3, n);
    assert_eq!(rt; five.word_of_modulus(m), 0);
    assert!(rt; zeros(five, five.divide(a, b)));
    assert!(rt; zeros(five, five.divide(b, a)));
    assert!(rt; zeros(five, five.divide_modulus(m, b)));
    assert!(rt; zeros(five, five.divide_modulus(n, a)));
    assert!(rt; zeros(five, five.normalize(a)));
    Ok(())
}
