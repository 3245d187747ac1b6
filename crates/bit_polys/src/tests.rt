// The domain on examples, with those at the limits.
use crate::BitPolys;
use domains::Domain;
use std::test::Fail;

#[test]
fn legal_words(rt: HostRuntime) {
    assert!(rt; !BitPolys.is_legal(0));
    assert!(rt; !BitPolys.is_legal(1));
    assert!(rt; BitPolys.is_legal(3));
    assert!(rt; BitPolys.is_legal(5));
    assert!(rt; BitPolys.is_legal(4294967295));
    assert!(rt; !BitPolys.is_legal(4294967296));
}

#[test]
fn squarefree_words(rt: HostRuntime) {
    // (x + 1)², x² + x + 1, x + 1 and x².
    assert!(rt; !BitPolys.is_squarefree(5));
    assert!(rt; BitPolys.is_squarefree(7));
    assert!(rt; BitPolys.is_squarefree(3));
    assert!(rt; !BitPolys.is_squarefree(4));
    // Of degree 31: (x + 1)^31, the irreducible x^31 + x^3 + 1, x^31 + 1 and x^31.
    assert!(rt; !BitPolys.is_squarefree(0xffff_ffff));
    assert!(rt; BitPolys.is_squarefree(0x8000_0009));
    assert!(rt; BitPolys.is_squarefree(0x8000_0001));
    assert!(rt; !BitPolys.is_squarefree(0x8000_0000));
}

#[test]
fn moduli(rt: HostRuntime) -> Result<(), Fail> {
    assert!(rt; BitPolys.modulus(5).is_none());
    assert!(rt; BitPolys.modulus(1).is_none());
    let m = BitPolys.modulus(7).ok_or("x² + x + 1 is squarefree")?;
    assert_eq!(rt; BitPolys.word_of_modulus(m), 7);
    Ok(())
}

#[test]
fn residues(rt: HostRuntime) -> Result<(), Fail> {
    let m = BitPolys.modulus(0b1011).ok_or("x³ + x + 1 is squarefree")?;
    let a = BitPolys.residue(0b10000, m);
    let b = BitPolys.residue(0b111, m);
    assert_eq!(rt; BitPolys.word_of(a), 0b110);
    assert_eq!(rt; BitPolys.word_of(BitPolys.add(a, b, m)), 1);
    assert_eq!(rt; BitPolys.word_of(BitPolys.subtract(a, b, m)), 1);
    assert_eq!(rt; BitPolys.word_of(BitPolys.multiply(a, b, m)), 0b100);
    Ok(())
}

#[test]
fn long_residues(rt: HostRuntime) -> Result<(), Fail> {
    let m = BitPolys
        .modulus(0x8000_0009)
        .ok_or("x^31 + x^3 + 1 is squarefree")?;
    let a = BitPolys.residue(0xffff_ffff_ffff_ffff, m);
    let b = BitPolys.residue(0xffff_ffff, m);
    assert_eq!(rt; BitPolys.word_of(a), 0x7fff_ff04);
    assert_eq!(rt; BitPolys.word_of(b), 0x7fff_fff6);
    assert_eq!(rt; BitPolys.word_of(BitPolys.multiply(b, b, m)), 0x2aaa_aafc);
    Ok(())
}

#[test]
fn quotients(rt: HostRuntime) -> Result<(), Fail> {
    let m = BitPolys.modulus(0b1011).ok_or("x³ + x + 1 is squarefree")?;
    let zero = BitPolys.residue(0, m);
    let b = BitPolys.residue(0b110, m);
    let (quotient, remainder) = BitPolys.divide_modulus(m, b);
    assert_eq!(rt; BitPolys.word_of(quotient), 0b11);
    assert_eq!(rt; BitPolys.word_of(remainder), 1);
    let (quotient, remainder) = BitPolys.divide(b, zero);
    assert_eq!(rt; BitPolys.word_of(quotient), 0);
    assert_eq!(rt; BitPolys.word_of(remainder), 0b110);
    let (normal, unit) = BitPolys.normalize(zero);
    assert_eq!(rt; BitPolys.word_of(normal), 0);
    assert_eq!(rt; BitPolys.word_of(unit), 1);
    Ok(())
}
