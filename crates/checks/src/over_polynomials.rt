// Euclid and splits over bit polynomials and byte polynomials.
use crate::asked::{factor, halves, inverse, is_zero, refusal};
use bit_polys::BitPolys;
use byte_polys::BytePolys;
use domains::{Answer, Domain, euclid};
use std::test::Fail;

fn over(p: u8) -> Result<BytePolys, Fail> {
    Ok(BytePolys::new(p).ok().ok_or("p is refused")?)
}

#[test]
fn euclid_over_bit_polynomials(rt: HostRuntime) {
    assert!(rt; is_zero(&BitPolys, 7, 7));
    assert_eq!(rt; inverse(&BitPolys, 2, 7), Some(3));
    assert_eq!(rt; factor(&BitPolys, 2, 6), Some(2));
    assert_eq!(rt; refusal(&BitPolys, 5), Some(10));
    assert_eq!(rt; refusal(&BitPolys, 7), None);
    assert_eq!(rt; refusal(&BitPolys, 1), Some(9));
    assert_eq!(rt; halves(&BitPolys, 6, 2), Some((2, 3)));
}

#[test]
fn euclid_over_byte_polynomials(rt: HostRuntime) -> Result<(), Fail> {
    let domain = over(5)?;
    assert_eq!(rt; factor(&domain, 513, 65537), Some(259));
    assert!(rt; is_zero(&domain, 65537, 65537));
    assert_eq!(rt; inverse(&domain, 2, 65537), Some(3));
    assert_eq!(rt; refusal(&domain, 131073), Some(9));
    assert_eq!(rt; refusal(&domain, 65542), Some(9));
    assert_eq!(rt; halves(&domain, 65537, 259), Some((259, 258)));
    Ok(())
}

// A value and a modulus over GF(7) in the domain over GF(5).
#[test]
fn euclid_on_foreign_arguments(rt: HostRuntime) -> Result<(), Fail> {
    let five = over(5)?;
    let seven = over(7)?;
    let m = five
        .modulus(65537)
        .ok_or("x^2 + 1 is squarefree over GF(5)")?;
    let n = seven
        .modulus(65537)
        .ok_or("x^2 + 1 is squarefree over GF(7)")?;
    let own = five.residue(2, m);
    let foreign = seven.residue(2, n);
    assert!(rt; !matches!(euclid(&five, own, m), Answer::Zero));
    assert!(rt; matches!(euclid(&five, foreign, m), Answer::Zero));
    assert!(rt; matches!(euclid(&five, own, n), Answer::Zero));
    Ok(())
}
