//! The seed of a call.

ghost use Rattle.drv_system.specs.Seed.{seed_named};
ghost use Rattle.std.specs.Prelude.{◌≡◌};

use crate::environment::value_of;
use hex::FromHex;
use std::alloc::AllocError;
use std::rt::Clock;

/// The number of eight hexadecimal digits of either case.
fn seed_of(text: &[u8]) -> Option<u32>
    ensures { result ≡ seed_named text.now }
{
    let bytes = <[u8; 4] as FromHex>::from_hex(text).ok()?;
    Some(u32::from_be_bytes(bytes))
}

/// The seed of temporary names: the variable GDRV_SEED if it has eight hexadecimal digits,
/// otherwise the low 32 bits of the clock's nanoseconds.
///
/// # Errors
/// `AllocError` if there is no memory for the variable's value.
pub fn clock_seed(rt: &HostRuntime) -> Result<u32, AllocError> {
    if let Some(digits) = value_of(rt, "GDRV_SEED")?
        && let Some(seed) = seed_of(digits.as_bytes())
    {
        return Ok(seed);
    }
    match rt.since_1970() {
        Ok(now) => Ok((now.as_nanos() % (1 << 32)) as u32),
        Err(_) => Ok(0),
    }
}
