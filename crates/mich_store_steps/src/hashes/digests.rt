// Digests of bytes.
ghost use Rattle.std.specs.Prelude.{◌≡◌, IfOk};
ghost use Rattle.sha2.specs.Sha256.{sha256};
ghost use Rattle.sha2.specs.Sha512.{sha512};
ghost use Rattle.rules_text.specs.hash.Blake2b.{blake};
ghost use Rattle.rules_code.specs.steps.Packing.{key_hash};

use mich_base::{Bytes, Memory};
use mich_blake::blake_of;
use sha2::{Digest, Sha256, Sha512};
use std::alloc::Global;

// BLAKE2b with a digest of 32 bytes.
pub(crate) fn blake2b_digest(alloc: Global, message: &[u8]) -> Result<Bytes, Memory>
    ensures { IfOk result (λ b. b ≡ blake 32 message.now) }
{
    let digest = blake_of(32, message);
    Bytes::from_slice(alloc, digest.as_slice())
}

pub(crate) fn sha256_digest(alloc: Global, message: &[u8]) -> Result<Bytes, Memory>
    ensures { IfOk result (λ b. b ≡ sha256 message.now) }
{
    let digest = Sha256::digest(message);
    Bytes::from_slice(alloc, &digest)
}

pub(crate) fn sha512_digest(alloc: Global, message: &[u8]) -> Result<Bytes, Memory>
    ensures { IfOk result (λ b. b ≡ sha512 message.now) }
{
    let digest = Sha512::digest(message);
    Bytes::from_slice(alloc, &digest)
}

// The hash of a key: its tag, and BLAKE2b with a digest of 20 bytes of what stands behind it.
pub(crate) fn key_digest(alloc: Global, key: &[u8]) -> Result<Bytes, Memory>
    ensures { IfOk result (λ b. b ≡ key_hash key.now) }
{
    let mut bytes = Vec::new(alloc);
    if let Some((tag, rest)) = key.split_first() {
        let digest = blake_of(20, rest);
        bytes.push(*tag)?;
        bytes.extend_from_slice(digest.as_slice())?;
    }
    Bytes::from_vec(bytes)
}
