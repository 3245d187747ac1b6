// Decimal numbers of 64 bits.
ghost use Rattle.std.specs.Prelude.{◌≡◌, ℕ, ◌+◌, ◌*◌, ◌<◌};
ghost use Rattle.wording.specs.Decimal.{decimal_value, fitting};

// Why a text is no number of 64 bits.
#[derive(Clone, Copy)]
pub enum NumberFault {
    NoDigits,
    PastLimit,
}

// The value of a text of decimal digits.
pub fn decimal(text: &[u8]) -> Result<u64, NumberFault>
    ensures { result ≡ decimal_value text.now }
{
    if text.is_empty() {
        return Err(NumberFault::NoDigits);
    }
    let mut value = Some(0);
    for b in text {
        if !b.is_ascii_digit() {
            return Err(NumberFault::NoDigits);
        }
        value = shifted(value, *b - b'0');
    }
    value.ok_or(NumberFault::PastLimit)
}

// One digit more, and none past 64 bits.
fn shifted(value: Option<u64>, digit: u8) -> Option<u64>
    requires { digit < 10 }
    ensures { (n : ℕ) → value ≡ fitting n → result ≡ fitting (n * 10 + digit) }
{
    value?.checked_mul(10)?.checked_add(u64::from(digit))
}
