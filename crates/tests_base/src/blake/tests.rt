// Digests that other programs gave.
use crate::blake::vectors::DIGESTS;
use mich_blake::{Blake2b, blake_of};
use std::alloc::Global;
use std::test::Fail;

// The sum FNV-1a of 64 bits over the bytes.
fn sum_of(bytes: &[u8]) -> u64 {
    let mut sum: u64 = 0xcbf2_9ce4_8422_2325;
    for byte in bytes {
        sum = (sum ^ *byte as u64).wrapping_mul(0x100_0000_01b3);
    }
    sum
}

// The message of a row in its first `len` bytes.
fn message(len: usize) -> [u8; 1000] {
    let mut bytes = [0; 1000];
    for (i, byte) in bytes.iter_mut().enumerate() {
        *byte = ((i * 7 + len % 251) % 251) as u8;
    }
    bytes
}

// Whether the digest of a row is right, in one piece and in three.
fn agrees(len: usize, size: u8, sum: u64) -> bool {
    if size == 0 || size > 64 || len > 1000 {
        return false;
    }
    let all = message(len);
    let bytes = &all[..len];
    let (first, rest) = bytes.split_at(len / 3);
    let (second, third) = rest.split_at(rest.len() / 2);
    let mut hasher = Blake2b::new(size);
    hasher.update(first);
    hasher.update(second);
    hasher.update(third);
    let whole = blake_of(size, bytes);
    let pieces = hasher.finalize();
    sum_of(whole.as_slice()) == sum && sum_of(pieces.as_slice()) == sum
}

// How many rows are right before the first that is not.
fn right_rows(rows: &[(usize, u8, u64)]) -> usize {
    rows.iter()
        .take_while(|row| agrees(row.0, row.1, row.2))
        .count()
}

#[test]
fn digests_of_hashlib(rt: HostRuntime) {
    assert!(rt; right_rows(&DIGESTS) == 208);
}

// Whether the digest of this size is spelt so.
fn is_spelt(alloc: Global, size: u8, bytes: &[u8], digest: &str) -> Result<bool, Fail> {
    if size == 0 || size > 64 {
        return Ok(false);
    }
    let spelt = hex::encode(alloc, blake_of(size, bytes).as_slice())?;
    Ok(spelt.as_str() == digest)
}

#[test]
fn a_digest_of_64_bytes(rt: HostRuntime) -> Result<(), Fail> {
    let digest =
        "ba80a53f981c4d0d6a2797b69f12f6e94c212f14685ac4b74b12bb6fdbffa2d17d87c5392aab792dc252d5de4533cc9518d38aa8dbf1925ab92386edd4009923";
    assert!(rt; is_spelt(rt.alloc(), 64, b"abc", digest)?);
    Ok(())
}

#[test]
fn a_digest_of_no_bytes(rt: HostRuntime) -> Result<(), Fail> {
    let digest = "0e5751c026e543b2e8ab2eb06099daa1d1e5df47778f7787faab45cdf12fe3a8";
    assert!(rt; is_spelt(rt.alloc(), 32, b"", digest)?);
    Ok(())
}
