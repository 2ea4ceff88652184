// BLAKE2b of a message that comes piece by piece (RFC 7693, 3.3).
ghost use Rattle.std.specs.Prelude.{◌≡◌, ◌+◌, ◌*◌, ◌/◌, ◌<◌, ◌≤◌, ◌^◌, ℕ, List, [], ◌++◌, false, length};
ghost use Rattle.rules_text.specs.hash.Blake2b.{blake, hash_after, initial_hash};
ghost use Rattle.mich_blake.specs.Hasher.{count_of, fed, hasher_of};

use crate::compression::{BLOCK_LEN, INITIAL_VECTOR, compress};
use crate::digests::Digest;
use std::marker::Model;

/// A hasher of BLAKE2b without a key, which is fed a message piece by piece. It keeps a block and a
/// count, and no copy of the message.
#[derive(Debug, Drop)]
pub struct Blake2b {
    hash: [u64; 8],
    // How many bytes went into the hash value.
    taken: u64,
    // The bytes behind them, and what an earlier block left.
    block: [u8; 128],
    used: u8,
    size: u8,
}

impl Model for Blake2b {
    ghost use Rattle.std.specs.Prelude.{◌≡◌, ◌≤◌, ◌<◌, ◌+◌, ◌^◌, length, take};
    ghost use Rattle.mich_blake.specs.Hasher.{Hasher};

    ghost Value = { Hasher };

    ghost view = { λ s. record { size = s.size; hash = s.hash; taken = s.taken; pending = take s.used s.block } };

    ghost invariant = { λ s. (s.size ≤ 64) × (s.used ≤ 128) × (length s.block ≡ 128) × (s.taken + s.used < 2 ^ 64) };
}

// Takes the whole blocks of `bytes` into the hash value, into which `taken` bytes went before.
fn take_blocks(hash: &mut [u64; 8], taken: u64, bytes: &[u8])
    requires { taken + length bytes.now < 2 ^ 64 }
    ensures { hash.new ≡ hash_after hash.old taken bytes.now (length bytes.now / 128) }
{
    'blocks: for i in 0..bytes.len() / BLOCK_LEN {
        let start = i * BLOCK_LEN;
        let end = start + BLOCK_LEN;
        compress(hash, &bytes[start..end], taken + end as u64, false);
    }
}

impl Blake2b {
    /// A hasher for digests of `len` bytes, 1 to 64.
    pub fn new(len: u8) -> Blake2b
        requires low { 1 ≤ len }
        requires high { len ≤ 64 }
        ensures fed { result ≡ hasher_of len [] }
        ensures size { result.size ≡ len }
        ensures count { count_of result ≡ 0 }
    {
        let mut hash = INITIAL_VECTOR;
        hash[0] = hash[0] ^ 0x0101_0000 ^ len as u64;
        Blake2b {
            hash,
            taken: 0,
            block: [0; 128],
            used: 0,
            size: len,
        }
    }

    // Takes more bytes of the message.
    fn feed(&mut self, bytes: &[u8])
        requires { count_of self.old + length bytes.now < 2 ^ 64 }
        ensures { self.new ≡ fed self.old bytes.now }
    {
        let used = self.used as usize;
        let room = BLOCK_LEN - used;
        if bytes.len() <= room {
            self.block[used..used + bytes.len()].copy_from_slice(bytes);
            self.used = (used + bytes.len()) as u8;
            return;
        }
        let (head, rest) = bytes.split_at(room);
        self.block[used..].copy_from_slice(head);
        let taken = self.taken + 128;
        compress(&mut self.hash, &self.block, taken, false);
        let whole = (rest.len() - 1) / BLOCK_LEN * BLOCK_LEN;
        let (blocks, tail) = rest.split_at(whole);
        take_blocks(&mut self.hash, taken, blocks);
        self.taken = taken + whole as u64;
        self.block[..tail.len()].copy_from_slice(tail);
        self.used = tail.len() as u8;
    }

    /// Takes more bytes of the message, of which all together are fewer than 2^64.
    pub fn update(&mut self, bytes: &[u8])
        requires { count_of self.old + length bytes.now < 2 ^ 64 }
        ensures state { self.new ≡ fed self.old bytes.now }
        ensures size { self.new.size ≡ self.old.size }
        ensures count { count_of self.new ≡ count_of self.old + length bytes.now }
        ensures fed { (len : ℕ) (m : List ℕ) → self.old ≡ hasher_of len m → self.new ≡ hasher_of len (m ++ bytes.now) }
    {
        self.feed(bytes);
    }

    /// The digest of the message that was fed.
    pub fn finalize(self) -> Digest
        ensures digest { (len : ℕ) (m : List ℕ) → self ≡ hasher_of len m → result ≡ blake len m }
        ensures size { length result ≡ self.size }
    {
        let mut hash = self.hash;
        let mut block = self.block;
        block[self.used as usize..].fill(0);
        compress(&mut hash, &block, self.taken + self.used as u64, true);
        Digest::of_hash(&hash, self.size)
    }
}

/// The digest of `len` bytes, 1 to 64, of a message.
pub fn blake_of(len: u8, bytes: &[u8]) -> Digest
    requires low { 1 ≤ len }
    requires high { len ≤ 64 }
    ensures digest { result ≡ blake len bytes.now }
    ensures size { length result ≡ len }
{
    let mut hasher = Blake2b::new(len);
    hasher.update(bytes);
    hasher.finalize()
}
