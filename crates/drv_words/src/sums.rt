//! A sum by which a text that was changed by chance is known.

ghost use Rattle.drv_words.specs.Checksums.{checksum};
ghost use Rattle.std.specs.Prelude.{◌≡◌};

/// The sum of no bytes.
const BASIS: u64 = 0xcbf2_9ce4_8422_2325;

/// The factor of each byte's turn.
const PRIME: u64 = 0x100_0000_01b3;

/// FNV-1a of 64 bits of these bytes (G. Fowler, L. C. Noll, K.-P. Vo, "The FNV Non-Cryptographic
/// Hash Algorithm"). One changed bit always changes it.
pub fn checksum(bytes: &[u8]) -> u64
    ensures { result ≡ checksum bytes.now }
{
    let mut sum = BASIS;
    for byte in bytes {
        sum = (sum ^ u64::from(*byte)).wrapping_mul(PRIME);
    }
    sum
}
