// Digests.
ghost use Rattle.std.specs.Prelude.{◌≡◌, ◌≤◌, ◌-◌, ◌++◌, length, replicate, take};
ghost use Rattle.std.specs.List.{flat_map};
ghost use Rattle.std.specs.Int.{to_le_bytes, w64};

use std::marker::Model;

/// A digest of 1 to 64 bytes. A contract sees it as the list of these bytes.
#[derive(Debug, Drop)]
pub struct Digest {
    /// The digest's bytes, and zeros behind them.
    pub bytes: [u8; 64],
    /// How many bytes the digest has.
    pub len: u8,
}

impl Model for Digest {
    ghost use Rattle.std.specs.Prelude.{◌≡◌, ◌≤◌, ◌-◌, ℕ, List, ◌++◌, take, drop, replicate};

    ghost Value = { List ℕ };

    ghost view = { λ d. take d.len d.bytes };

    ghost invariant = { λ d. (d.len ≤ 64) × (drop d.len d.bytes ≡ replicate (64 - d.len) 0) };
}

// The bytes of a hash value, low byte first.
fn hash_bytes(hash: &[u64; 8]) -> [u8; 64]
    ensures { result ≡ flat_map (to_le_bytes w64) hash.now }
{
    let mut bytes = [0; 64];
    'words: for i in 0..8 {
        bytes[8 * i..8 * i + 8].copy_from_slice(&hash[i].to_le_bytes());
    }
    bytes
}

// Bytes, and zeros behind them.
fn padded<const N: usize>(bytes: &[u8]) -> [u8; N]
    requires { length bytes.now ≤ N }
    ensures { result ≡ bytes.now ++ replicate (N - length bytes.now) 0 }
{
    let mut all = [0; N];
    all[..bytes.len()].copy_from_slice(bytes);
    all
}

impl Digest {
    // The first `len` bytes of a hash value.
    pub(crate) fn of_hash(hash: &[u64; 8], len: u8) -> Digest
        requires { len ≤ 64 }
        ensures bytes { result ≡ take len (flat_map (to_le_bytes w64) hash.now) }
        ensures size { length result ≡ len }
    {
        let all = hash_bytes(hash);
        let bytes = padded(&all[..len as usize]);
        Digest { bytes, len }
    }

    /// The bytes of the digest.
    pub fn as_slice(&self) -> &[u8]
        ensures { result.now ≡ self.now }
    {
        &self.bytes[..self.len as usize]
    }
}
