// The values and the moduli of the domain.
ghost use Rattle.std.specs.Prelude.{◌^◌, ◌<◌, ◌≤◌};
ghost use Rattle.integers.specs.Squarefree.{NoSquareDivides};

// A number below 2^31.
#[derive(Clone, Copy)]
pub struct Integer {
    pub(crate) word: u32,
    ghost small: { word < 2 ^ 31 },
}

// A legal modulus that no square of a number from 2 on divides.
#[derive(Clone, Copy)]
pub struct IntegerModulus {
    pub(crate) word: u32,
    ghost large: { 2 ≤ word },
    ghost small: { word < 2 ^ 31 },
    ghost free: { NoSquareDivides word },
}
