// The values and the moduli of the domains of this kind.
ghost use Rattle.std.specs.Prelude.{◌≡◌, ◌+◌, ◌≤◌, true, slice_index};
ghost use Rattle.byte_polys.specs.Domain.{NoSquareDivides};
ghost use Rattle.byte_polys.specs.Listed.{listed};
ghost use Rattle.byte_polys.specs.Steps.{Below, ZeroFrom};

// A polynomial of degree 7 or less over GF(p), by its coefficients, that of x^0 first.
#[derive(Clone, Copy)]
pub struct BytePoly {
    pub(crate) coefficients: [u8; 8],
    pub(crate) p: u8,
    ghost below: { Below p coefficients },
    ghost prime: { listed p ≡ true },
}

// A monic polynomial of degree 1 to 7 over GF(p) that no square of a non-unit divides. Its degree stands beside it, so
// that no division has to look for it.
#[derive(Clone, Copy)]
pub struct BytePolyModulus {
    pub(crate) coefficients: [u8; 8],
    pub(crate) p: u8,
    pub(crate) degree: usize,
    ghost below: { Below p coefficients },
    ghost prime: { listed p ≡ true },
    ghost low: { 1 ≤ degree },
    ghost high: { degree ≤ 7 },
    ghost one: { slice_index coefficients degree ≡ 1 },
    ghost above: { ZeroFrom (degree + 1) coefficients },
    ghost free: { NoSquareDivides p prime coefficients },
}
