// The compression function of BLAKE2b (RFC 7693, 3.1 and 3.2).
ghost use Rattle.std.specs.Prelude.{◌≡◌, ◌+◌, ◌*◌, ◌<◌, ◌≤◌, ℕ, length};
ghost use Rattle.rules_text.specs.hash.Blake2b.{block_words, compress, folded, in_order, mixed, round, rounds, start_vector, word_at};

pub(crate) const BLOCK_LEN: usize = 128;

// The initialization vector.
pub(crate) const INITIAL_VECTOR: [u64; 8] = [
    0x6a09_e667_f3bc_c908,
    0xbb67_ae85_84ca_a73b,
    0x3c6e_f372_fe94_f82b,
    0xa54f_f53a_5f1d_36f1,
    0x510e_527f_ade6_82d1,
    0x9b05_688c_2b3e_6c1f,
    0x1f83_d9ab_fb41_bd6b,
    0x5be0_cd19_137e_2179,
];

// G: mixes the words `x` and `y` into the places `a`, `b`, `c` and `d`.
#[inline(always)]
fn mix(v: &mut [u64; 16], a: usize, b: usize, c: usize, d: usize, x: u64, y: u64)
    requires a { a < 16 }
    requires b { b < 16 }
    requires c { c < 16 }
    requires d { d < 16 }
    ensures { v.new ≡ mixed v.old a b c d x y }
{
    let a1 = v[a].wrapping_add(v[b]).wrapping_add(x);
    let d1 = (v[d] ^ a1).rotate_right(32);
    let c1 = v[c].wrapping_add(d1);
    let b1 = (v[b] ^ c1).rotate_right(24);
    let a2 = a1.wrapping_add(b1).wrapping_add(y);
    let d2 = (d1 ^ a2).rotate_right(16);
    let c2 = c1.wrapping_add(d2);
    let b2 = (b1 ^ c2).rotate_right(63);
    v[a] = a2;
    v[b] = b2;
    v[c] = c2;
    v[d] = d2;
}

// One round: the columns, then the diagonals.
#[inline(always)]
fn round(v: &mut [u64; 16], words: [u64; 16])
    ensures { v.new ≡ round v.old words }
{
    mix(v, 0, 4, 8, 12, words[0], words[1]);
    mix(v, 1, 5, 9, 13, words[2], words[3]);
    mix(v, 2, 6, 10, 14, words[4], words[5]);
    mix(v, 3, 7, 11, 15, words[6], words[7]);
    mix(v, 0, 5, 10, 15, words[8], words[9]);
    mix(v, 1, 6, 11, 12, words[10], words[11]);
    mix(v, 2, 7, 8, 13, words[12], words[13]);
    mix(v, 3, 4, 9, 14, words[14], words[15]);
}

// The words of the block in the order of round `r`, of which there are ten.
#[inline(always)]
fn in_order(m: &[u64; 16], r: usize) -> [u64; 16]
    requires { r < 10 }
    ensures { result ≡ in_order m.now r }
{
    match r {
        0 => [
            m[0], m[1], m[2], m[3], m[4], m[5], m[6], m[7], m[8], m[9], m[10], m[11], m[12], m[13],
            m[14], m[15],
        ],
        1 => [
            m[14], m[10], m[4], m[8], m[9], m[15], m[13], m[6], m[1], m[12], m[0], m[2], m[11],
            m[7], m[5], m[3],
        ],
        2 => [
            m[11], m[8], m[12], m[0], m[5], m[2], m[15], m[13], m[10], m[14], m[3], m[6], m[7],
            m[1], m[9], m[4],
        ],
        3 => [
            m[7], m[9], m[3], m[1], m[13], m[12], m[11], m[14], m[2], m[6], m[5], m[10], m[4],
            m[0], m[15], m[8],
        ],
        4 => [
            m[9], m[0], m[5], m[7], m[2], m[4], m[10], m[15], m[14], m[1], m[11], m[12], m[6],
            m[8], m[3], m[13],
        ],
        5 => [
            m[2], m[12], m[6], m[10], m[0], m[11], m[8], m[3], m[4], m[13], m[7], m[5], m[15],
            m[14], m[1], m[9],
        ],
        6 => [
            m[12], m[5], m[1], m[15], m[14], m[13], m[4], m[10], m[0], m[7], m[6], m[3], m[9],
            m[2], m[8], m[11],
        ],
        7 => [
            m[13], m[11], m[7], m[14], m[12], m[1], m[3], m[9], m[5], m[0], m[15], m[4], m[8],
            m[6], m[2], m[10],
        ],
        8 => [
            m[6], m[15], m[14], m[9], m[11], m[3], m[0], m[8], m[12], m[2], m[13], m[7], m[1],
            m[4], m[10], m[5],
        ],
        _ => [
            m[10], m[2], m[8], m[4], m[7], m[6], m[1], m[5], m[15], m[11], m[9], m[14], m[3],
            m[12], m[13], m[0],
        ],
    }
}

// The twelve rounds.
#[inline(always)]
fn rounds(v: &mut [u64; 16], m: &[u64; 16])
    ensures { v.new ≡ rounds v.old m.now 12 }
{
    round(v, in_order(m, 0));
    round(v, in_order(m, 1));
    round(v, in_order(m, 2));
    round(v, in_order(m, 3));
    round(v, in_order(m, 4));
    round(v, in_order(m, 5));
    round(v, in_order(m, 6));
    round(v, in_order(m, 7));
    round(v, in_order(m, 8));
    round(v, in_order(m, 9));
    round(v, in_order(m, 0));
    round(v, in_order(m, 1));
}

// The word at place `i` of a block.
#[inline(always)]
#[tactic(auto, unfolding(rules_text::specs::hash::Blake2b::word_at))]
fn word_at(block: &[u8], i: usize) -> u64
    requires { 8 * i + 8 ≤ length block.now }
    ensures { result ≡ word_at block.now i }
{
    let mut bytes = [0; 8];
    bytes.copy_from_slice(&block[8 * i..8 * i + 8]);
    u64::from_le_bytes(bytes)
}

// The words of a block.
#[inline(always)]
fn block_words(block: &[u8]) -> [u64; 16]
    requires { length block.now ≡ 128 }
    ensures { result ≡ block_words block.now }
{
    [
        word_at(block, 0),
        word_at(block, 1),
        word_at(block, 2),
        word_at(block, 3),
        word_at(block, 4),
        word_at(block, 5),
        word_at(block, 6),
        word_at(block, 7),
        word_at(block, 8),
        word_at(block, 9),
        word_at(block, 10),
        word_at(block, 11),
        word_at(block, 12),
        word_at(block, 13),
        word_at(block, 14),
        word_at(block, 15),
    ]
}

// The vector before the rounds.
#[inline(always)]
fn start_vector(h: &[u64; 8], count: u64, last: bool) -> [u64; 16]
    ensures { result ≡ start_vector h.now count last }
{
    let iv = INITIAL_VECTOR;
    [
        h[0],
        h[1],
        h[2],
        h[3],
        h[4],
        h[5],
        h[6],
        h[7],
        iv[0],
        iv[1],
        iv[2],
        iv[3],
        iv[4] ^ count,
        iv[5],
        if last { !iv[6] } else { iv[6] },
        iv[7],
    ]
}

// The hash value with both halves of the vector.
#[inline(always)]
fn folded(h: &[u64; 8], v: &[u64; 16]) -> [u64; 8]
    ensures { result ≡ folded h.now v.now }
{
    [
        h[0] ^ v[0] ^ v[8],
        h[1] ^ v[1] ^ v[9],
        h[2] ^ v[2] ^ v[10],
        h[3] ^ v[3] ^ v[11],
        h[4] ^ v[4] ^ v[12],
        h[5] ^ v[5] ^ v[13],
        h[6] ^ v[6] ^ v[14],
        h[7] ^ v[7] ^ v[15],
    ]
}

/// The hash value after a block of 128 bytes, with which `count` bytes end.
pub(crate) fn compress(h: &mut [u64; 8], block: &[u8], count: u64, last: bool)
    requires { length block.now ≡ 128 }
    ensures { h.new ≡ compress h.old block.now count last }
{
    let m = block_words(block);
    let mut v = start_vector(h, count, last);
    rounds(&mut v, &m);
    *h = folded(h, &v);
}
