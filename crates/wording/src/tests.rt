// Bytes from hexadecimal digits.
use crate::hex_bytes;
use std::alloc::AllocError;

#[test]
fn digits_in_pairs(rt: HostRuntime) -> Result<(), AllocError> {
    let bytes = hex_bytes(rt.alloc(), b"0aFF7")?;
    assert!(rt; bytes.as_slice() == [10, 255].as_slice());
    Ok(())
}
