// SHA-256 (FIPS 180-4), and digests as lower-case hex.
#![tactic(auto)]

mod constants;

ghost use Rattle.std.specs.Prelude.{◌≡◌, ◌+◌, ◌*◌, ◌/◌, ◌%◌, ◌<◌, ◌≤◌, length, take, drop, slice_index};
ghost use Rattle.base.specs.Hex.{hex_digit, hex_of};
ghost use Rattle.sha256.specs.Words.{add, rotr, ch, maj, Σ₀, Σ₁, σ₀, σ₁};
ghost use Rattle.sha256.specs.Constants.{constants};
ghost use Rattle.sha256.specs.Compress.{schedule, round as round_of, rounds, sum as sum_of, compress as compressed};
ghost use Rattle.sha256.specs.Message.{big_endian, zeros, padded, word_at, words_at, hashed, hash_bytes, digest_of};

// A hash value, and the working variables of the rounds.
#[derive(Clone, Copy)]
struct Hash {
    a: u32,
    b: u32,
    c: u32,
    d: u32,
    e: u32,
    f: u32,
    g: u32,
    h: u32,
}

// Bytes of a block.
const BLOCK: usize = 64;
// Words of a block.
const WORDS: usize = 16;
// Rounds of a block, and words of its schedule.
const ROUNDS: usize = 64;
// Bytes of the last block before the message's length.
const ROOM: usize = 56;
// The length in bits is taken modulo 2^64, and so the length in bytes modulo 2^61.
const LENGTHS: usize = 0x2000000000000000;
// Bytes of a digest.
const DIGEST: usize = 32;

// Addition modulo 2^32.
#[tactic(auto, unfolding(crate::specs::Words::add))]
fn plus(x: u32, y: u32) -> u32
    ensures { result ≡ add x y }
{
    x.wrapping_add(y)
}

// Ch: bits of y where x has a bit 1, else those of z.
fn choose(x: u32, y: u32, z: u32) -> u32
    ensures { result ≡ ch x y z }
{
    (x & y) ^ (!x & z)
}

// Maj: bits that two of the three have.
fn majority(x: u32, y: u32, z: u32) -> u32
    ensures { result ≡ maj x y z }
{
    (x & y) ^ (x & z) ^ (y & z)
}

fn big_sigma_0(x: u32) -> u32
    ensures { result ≡ Σ₀ x }
{
    x.rotate_right(2) ^ x.rotate_right(13) ^ x.rotate_right(22)
}

fn big_sigma_1(x: u32) -> u32
    ensures { result ≡ Σ₁ x }
{
    x.rotate_right(6) ^ x.rotate_right(11) ^ x.rotate_right(25)
}

fn small_sigma_0(x: u32) -> u32
    ensures { result ≡ σ₀ x }
{
    x.rotate_right(7) ^ x.rotate_right(18) ^ (x >> 3)
}

fn small_sigma_1(x: u32) -> u32
    ensures { result ≡ σ₁ x }
{
    x.rotate_right(17) ^ x.rotate_right(19) ^ (x >> 10)
}

// A word of the schedule, by those 2, 7, 15 and 16 places before it.
fn next_word(w2: u32, w7: u32, w15: u32, w16: u32) -> u32
    ensures { result ≡ add (add (add (σ₁ w2) w7) (σ₀ w15)) w16 }
{
    plus(plus(plus(small_sigma_1(w2), w7), small_sigma_0(w15)), w16)
}

// The schedule of the block whose words are the first 16 of m.
fn expand(m: [u32; ROUNDS]) -> [u32; ROUNDS]
    ensures { result ≡ schedule (take 16 m) 48 }
{
    let mut w = m;
    for t in WORDS..ROUNDS {
        w[t] = next_word(w[t - 2], w[t - 7], w[t - 15], w[t - 16]);
    }
    w
}

// One round, with its constant and its word.
fn round(v: Hash, k: u32, w: u32) -> Hash
    ensures { result ≡ round_of v k w }
{
    let mixed = plus(plus(v.h, big_sigma_1(v.e)), choose(v.e, v.f, v.g));
    let t1 = plus(plus(mixed, k), w);
    let t2 = plus(big_sigma_0(v.a), majority(v.a, v.b, v.c));
    Hash {
        a: plus(t1, t2),
        b: v.a,
        c: v.b,
        d: v.c,
        e: plus(v.d, t1),
        f: v.e,
        g: v.f,
        h: v.g,
    }
}

// All rounds of a block. The constants are taken once before the loop: `K[t]` would copy them at every turn.
fn all_rounds(h: Hash, w: [u32; ROUNDS]) -> Hash
    ensures { result ≡ rounds h constants w }
{
    let mut v = h;
    for (k, word) in constants::K.iter().zip(&w) {
        v = round(v, *k, *word);
    }
    v
}

// The words of v and of u added, each to each.
fn sum(v: Hash, u: Hash) -> Hash
    ensures { result ≡ sum_of v u }
{
    Hash {
        a: plus(v.a, u.a),
        b: plus(v.b, u.b),
        c: plus(v.c, u.c),
        d: plus(v.d, u.d),
        e: plus(v.e, u.e),
        f: plus(v.f, u.f),
        g: plus(v.g, u.g),
        h: plus(v.h, u.h),
    }
}

// The hash value after the block whose words are the first 16 of m.
fn compress(h: Hash, m: [u32; ROUNDS]) -> Hash
    ensures { result ≡ compressed h (take 16 m) }
{
    sum(all_rounds(h, expand(m)), h)
}

// The word whose first byte is at place i.
fn word_at(s: &[u8], i: usize) -> u32
    requires { i + 3 < length s.now }
    ensures { result ≡ word_at s.now i }
{
    u32::from_be_bytes([s[i], s[i + 1], s[i + 2], s[i + 3]])
}

// The 16 words of a block, in the first places.
fn block_words(block: &[u8; BLOCK]) -> [u32; ROUNDS]
    ensures { take 16 result ≡ words_at block.now 0 16 }
{
    let mut m = [0u32; ROUNDS];
    for k in 0..WORDS {
        m[k] = word_at(block, k * 4);
    }
    m
}

// The hash value after the whole blocks of s, from h on.
fn hash_blocks(h: Hash, s: &[u8]) -> Hash
    ensures { result ≡ hashed h s.now (length s.now / 64) }
{
    let (blocks, _) = s.as_chunks::<BLOCK>();
    let mut v = h;
    for block in blocks {
        v = compress(v, block_words(block));
    }
    v
}

// How many zero bytes follow the byte 128, where the message has n bytes.
fn zero_count(n: usize) -> usize
    ensures { result ≡ zeros n }
{
    (BLOCK + ROOM - 1 - n % BLOCK) % BLOCK
}

// Byte j of the 8 bytes of the length in bits, where the message has n bytes.
fn length_byte(n: usize, j: usize) -> u8
    requires { j < 8 }
    ensures { result ≡ slice_index (big_endian 8 (n * 8)) j }
{
    let bits = n % LENGTHS * 8;
    bits.to_be_bytes()[j]
}

// Byte i of the padded message.
fn padded_byte(s: &[u8], i: usize) -> u8
    requires { i < length s.now + 9 + zeros (length s.now) }
    ensures { result ≡ slice_index (padded s.now) i }
{
    let n = s.len();
    if i < n {
        return s[i];
    }
    if i == n {
        return 128;
    }
    let k = i - n - 1;
    let z = zero_count(n);
    if k < z {
        return 0;
    }
    length_byte(n, k - z)
}

// How many bytes of the padded message follow the message's whole blocks: one block, or two.
fn tail_size(n: usize) -> usize
    ensures value { result ≡ n % 64 + 9 + zeros n }
    ensures upper_bound { result ≤ 128 }
{
    if n % BLOCK < ROOM { BLOCK } else { 2 * BLOCK }
}

// The bytes of the padded message that follow the message's whole blocks, in the first places.
fn tail(s: &[u8]) -> [u8; 2 * BLOCK]
    ensures { take (length s.now % 64 + 9 + zeros (length s.now)) result ≡ drop (length s.now / 64 * 64) (padded s.now) }
{
    let start = s.len() / BLOCK * BLOCK;
    let size = tail_size(s.len());
    let mut t = [0u8; 2 * BLOCK];
    for k in 0..size {
        t[k] = padded_byte(s, start + k);
    }
    t
}

// Byte j of a word, the highest first.
fn word_byte(w: u32, j: usize) -> u8
    requires { j < 4 }
    ensures { result ≡ slice_index (big_endian 4 w) j }
{
    w.to_be_bytes()[j]
}

// The words of a hash value, one after the other.
fn hash_bytes(v: Hash) -> [u8; 32]
    ensures { result ≡ hash_bytes v }
{
    let words = [v.a, v.b, v.c, v.d, v.e, v.f, v.g, v.h];
    let mut out = [0u8; 32];
    for i in 0..DIGEST {
        out[i] = word_byte(words[i / 4], i % 4);
    }
    out
}

// The SHA-256 digest of s.
pub fn digest(s: &[u8]) -> [u8; 32]
    ensures { result ≡ digest_of s.now }
{
    let initial = Hash {
        a: 0x6a09e667,
        b: 0xbb67ae85,
        c: 0x3c6ef372,
        d: 0xa54ff53a,
        e: 0x510e527f,
        f: 0x9b05688c,
        g: 0x1f83d9ab,
        h: 0x5be0cd19,
    };
    let h = hash_blocks(initial, s);
    let t = tail(s);
    let size = tail_size(s.len());
    hash_bytes(hash_blocks(h, &t[..size]))
}

// The lower-case character of a digit, by its value.
fn hex_char(d: u8) -> u8
    requires { d < 16 }
    ensures { result ≡ hex_digit d }
{
    if d < 10 { b'0' + d } else { b'a' + (d - 10) }
}

// A digest as 64 lower-case hex digits.
pub fn hex(digest: [u8; 32]) -> [u8; 64]
    ensures { result ≡ hex_of digest }
{
    let mut out = [0u8; 64];
    for (i, b) in digest.iter().enumerate() {
        out[i * 2] = hex_char(*b / 16);
        out[i * 2 + 1] = hex_char(*b % 16);
    }
    out
}

// The SHA-256 digest of s as 64 lower-case hex digits.
pub fn hex_digest(s: &[u8]) -> [u8; 64]
    ensures { result ≡ hex_of (digest_of s.now) }
{
    hex(digest(s))
}
