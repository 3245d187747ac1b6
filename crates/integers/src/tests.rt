// The domain on examples, with those at the limits.
use crate::Integers;
use domains::Domain;
use std::test::Fail;

#[test]
fn legal_words(rt: HostRuntime) {
    assert!(rt; !Integers.is_legal(1));
    assert!(rt; Integers.is_legal(2));
    assert!(rt; Integers.is_legal(12));
    assert!(rt; Integers.is_legal(2147483647));
    assert!(rt; !Integers.is_legal(2147483648));
}

#[test]
fn squarefree_words(rt: HostRuntime) {
    assert!(rt; !Integers.is_squarefree(12));
    assert!(rt; Integers.is_squarefree(30));
    assert!(rt; !Integers.is_squarefree(49));
    // Four times the prime 536,870,909, the largest prime, and the largest square of a prime.
    assert!(rt; !Integers.is_squarefree(2147483636));
    assert!(rt; Integers.is_squarefree(2147483647));
    assert!(rt; !Integers.is_squarefree(2147117569));
}

#[test]
fn moduli(rt: HostRuntime) -> Result<(), Fail> {
    assert!(rt; Integers.modulus(12).is_none());
    let m = Integers.modulus(30).ok_or("30 is squarefree")?;
    assert_eq!(rt; Integers.word_of_modulus(m), 30);
    Ok(())
}

#[test]
fn residues(rt: HostRuntime) -> Result<(), Fail> {
    let m = Integers.modulus(7).ok_or("7 is squarefree")?;
    let two = Integers.residue(16, m);
    let five = Integers.residue(5, m);
    assert_eq!(rt; Integers.word_of(two), 2);
    assert_eq!(rt; Integers.word_of(Integers.add(five, five, m)), 3);
    assert_eq!(rt; Integers.word_of(Integers.subtract(two, five, m)), 4);
    assert_eq!(rt; Integers.word_of(Integers.subtract(two, two, m)), 0);
    assert_eq!(rt; Integers.word_of(Integers.multiply(five, five, m)), 4);
    Ok(())
}

#[test]
fn quotients(rt: HostRuntime) -> Result<(), Fail> {
    let m = Integers.modulus(7).ok_or("7 is squarefree")?;
    let zero = Integers.residue(0, m);
    let two = Integers.residue(2, m);
    let (quotient, remainder) = Integers.divide_modulus(m, two);
    assert_eq!(rt; Integers.word_of(quotient), 3);
    assert_eq!(rt; Integers.word_of(remainder), 1);
    let (quotient, remainder) = Integers.divide(two, zero);
    assert_eq!(rt; Integers.word_of(quotient), 0);
    assert_eq!(rt; Integers.word_of(remainder), 2);
    let (normal, unit) = Integers.normalize(zero);
    assert_eq!(rt; Integers.word_of(normal), 0);
    assert_eq!(rt; Integers.word_of(unit), 1);
    Ok(())
}

#[test]
fn quotients_of_a_modulus_by_zero(rt: HostRuntime) -> Result<(), Fail> {
    let m = Integers.modulus(7).ok_or("7 is squarefree")?;
    let (quotient, remainder) = Integers.divide_modulus(m, Integers.residue(0, m));
    assert_eq!(rt; Integers.word_of(quotient), 0);
    assert_eq!(rt; Integers.word_of(remainder), 7);
    Ok(())
}
