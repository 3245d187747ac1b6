// The values and the moduli of the domain.
ghost use Rattle.std.specs.Prelude.{◌^◌, ◌<◌, ◌≤◌};
ghost use Rattle.bit_polys.specs.Moduli.{NoSquareDivides};

// A polynomial of degree up to 31.
#[derive(Clone, Copy)]
pub struct BitPoly {
    pub(crate) word: u32,
}

// A squarefree polynomial of degree 1 to 31.
#[derive(Clone, Copy)]
pub struct BitPolyModulus {
    pub(crate) word: u32,
    ghost large: { 2 ≤ word },
    ghost small: { word < 2 ^ 32 },
    ghost free: { NoSquareDivides word },
}
