//! The compression function of BLAKE2s (RFC 7693, section 3.2), one block of 64 bytes at a time.

ghost use Rattle.std.specs.Prelude.{◌≡◌, ℕ, ◌+◌, ◌*◌, ◌%◌, ◌^◌, ◌<◌, ◌≤◌, length, map, slice_index};
ghost use Rattle.std.specs.Prelude.{nat_lt, IsTrue};
ghost use Rattle.std.specs.List.{list_all};
ghost use Rattle.b2s_mac.specs.Blake2s.{compress, half_mix, joined, last_flag, mix, round, rounds};
ghost use Rattle.b2s_mac.specs.Blake2s.{sigma, word_at, words, work_vector};

/// The initialization vector (section 2.6).
pub(crate) const IV: [u32; 8] = [
    0x6A09_E667,
    0xBB67_AE85,
    0x3C6E_F372,
    0xA54F_F53A,
    0x510E_527F,
    0x9B05_688C,
    0x1F83_D9AB,
    0x5BE0_CD19,
];

// The message schedule (section 2.7).
const SIGMA: [[usize; 16]; 10] = [
    [0, 1, 2, 3, 4, 5, 6, 7, 8, 9, 10, 11, 12, 13, 14, 15],
    [14, 10, 4, 8, 9, 15, 13, 6, 1, 12, 0, 2, 11, 7, 5, 3],
    [11, 8, 12, 0, 5, 2, 15, 13, 10, 14, 3, 6, 7, 1, 9, 4],
    [7, 9, 3, 1, 13, 12, 11, 14, 2, 6, 5, 10, 4, 0, 15, 8],
    [9, 0, 5, 7, 2, 4, 10, 15, 14, 1, 11, 12, 6, 8, 3, 13],
    [2, 12, 6, 10, 0, 11, 8, 3, 4, 13, 7, 5, 15, 14, 1, 9],
    [12, 5, 1, 15, 14, 13, 4, 10, 0, 7, 6, 3, 9, 2, 8, 11],
    [13, 11, 7, 14, 12, 1, 3, 9, 5, 0, 15, 4, 8, 6, 2, 10],
    [6, 15, 14, 9, 11, 3, 0, 8, 12, 2, 13, 7, 1, 4, 10, 5],
    [10, 2, 8, 4, 7, 6, 1, 5, 15, 11, 9, 14, 3, 12, 13, 0],
];

// Half of the mixing function (section 3.1), in place.
#[inline(always)]
fn half_mix(v: &mut [u32; 16], at: [usize; 4], x: u32, r: u32, s: u32)
    requires a { slice_index at 0 < 16 }
    requires b { slice_index at 1 < 16 }
    requires c { slice_index at 2 < 16 }
    requires d { slice_index at 3 < 16 }
    ensures { v.new ≡ half_mix v.old (slice_index at 0) (slice_index at 1) (slice_index at 2)
        (slice_index at 3) x r s }
{
    let [a, b, c, d] = at;
    v[a] = v[a].wrapping_add(v[b]).wrapping_add(x);
    v[d] = (v[d] ^ v[a]).rotate_right(r);
    v[c] = v[c].wrapping_add(v[d]);
    v[b] = (v[b] ^ v[c]).rotate_right(s);
}

// The mixing function G (section 3.1), in place.
#[inline(always)]
fn mix(v: &mut [u32; 16], at: [usize; 4], x: u32, y: u32)
    requires a { slice_index at 0 < 16 }
    requires b { slice_index at 1 < 16 }
    requires c { slice_index at 2 < 16 }
    requires d { slice_index at 3 < 16 }
    ensures { v.new ≡ mix v.old (slice_index at 0) (slice_index at 1) (slice_index at 2)
        (slice_index at 3) x y }
{
    half_mix(v, at, x, 16, 12);
    half_mix(v, at, y, 8, 7);
}

// A round (section 3.2): the columns, and then the diagonals, with a block's words in the order of
// the round.
#[inline(always)]
fn round(v: &mut [u32; 16], s: &[u32; 16])
    ensures { v.new ≡ round v.old s.now }
{
    mix(v, [0, 4, 8, 12], s[0], s[1]);
    mix(v, [1, 5, 9, 13], s[2], s[3]);
    mix(v, [2, 6, 10, 14], s[4], s[5]);
    mix(v, [3, 7, 11, 15], s[6], s[7]);
    mix(v, [0, 5, 10, 15], s[8], s[9]);
    mix(v, [1, 6, 11, 12], s[10], s[11]);
    mix(v, [2, 7, 8, 13], s[12], s[13]);
    mix(v, [3, 4, 9, 14], s[14], s[15]);
}

// A block's words in the order of a row of the schedule.
#[inline(always)]
fn in_order(m: &[u32; 16], row: &[usize; 16]) -> [u32; 16]
    requires { IsTrue (list_all (λ k. nat_lt k 16) row.now) }
    ensures { result ≡ map (λ k. slice_index m.now k) row.now }
{
    [
        m[row[0]], m[row[1]], m[row[2]], m[row[3]], m[row[4]], m[row[5]], m[row[6]], m[row[7]],
        m[row[8]], m[row[9]], m[row[10]], m[row[11]], m[row[12]], m[row[13]], m[row[14]],
        m[row[15]],
    ]
}

// The ten rounds, written out: so each word that a round takes is at a constant place.
#[inline(always)]
fn rounds(v: &mut [u32; 16], m: &[u32; 16])
    ensures { v.new ≡ rounds v.old m.now sigma }
{
    round(v, &in_order(m, &SIGMA[0]));
    round(v, &in_order(m, &SIGMA[1]));
    round(v, &in_order(m, &SIGMA[2]));
    round(v, &in_order(m, &SIGMA[3]));
    round(v, &in_order(m, &SIGMA[4]));
    round(v, &in_order(m, &SIGMA[5]));
    round(v, &in_order(m, &SIGMA[6]));
    round(v, &in_order(m, &SIGMA[7]));
    round(v, &in_order(m, &SIGMA[8]));
    round(v, &in_order(m, &SIGMA[9]));
}

#[inline(always)]
fn word_at(block: &[u8], k: usize) -> u32
    requires { 4 * k + 4 ≤ length block.now }
    ensures { result ≡ word_at block.now k }
{
    u32::from_le_bytes([
        block[4 * k],
        block[4 * k + 1],
        block[4 * k + 2],
        block[4 * k + 3],
    ])
}

#[inline(always)]
fn words(block: &[u8]) -> [u32; 16]
    requires { length block.now ≡ 64 }
    ensures { result ≡ words block.now }
{
    [
        word_at(block, 0),
        word_at(block, 1),
        word_at(block, 2),
        word_at(block, 3),
        word_at(block, 4),
        word_at(block, 5),
        word_at(block, 6),
        word_at(block, 7),
        word_at(block, 8),
        word_at(block, 9),
        word_at(block, 10),
        word_at(block, 11),
        word_at(block, 12),
        word_at(block, 13),
        word_at(block, 14),
        word_at(block, 15),
    ]
}

fn last_flag(last: bool) -> u32
    ensures { result ≡ last_flag last }
{
    if last { u32::MAX } else { 0 }
}

#[inline(always)]
fn work_vector(h: &[u32; 8], count: u64, last: bool) -> [u32; 16]
    ensures { result ≡ work_vector h.now count last }
{
    [
        h[0],
        h[1],
        h[2],
        h[3],
        h[4],
        h[5],
        h[6],
        h[7],
        IV[0],
        IV[1],
        IV[2],
        IV[3],
        IV[4] ^ (count % 0x1_0000_0000) as u32,
        IV[5] ^ (count / 0x1_0000_0000) as u32,
        IV[6] ^ last_flag(last),
        IV[7],
    ]
}

#[inline(always)]
fn joined(h: &[u32; 8], v: &[u32; 16]) -> [u32; 8]
    ensures { result ≡ joined h.now v.now }
{
    [
        h[0] ^ v[0] ^ v[8],
        h[1] ^ v[1] ^ v[9],
        h[2] ^ v[2] ^ v[10],
        h[3] ^ v[3] ^ v[11],
        h[4] ^ v[4] ^ v[12],
        h[5] ^ v[5] ^ v[13],
        h[6] ^ v[6] ^ v[14],
        h[7] ^ v[7] ^ v[15],
    ]
}

/// Takes a block of 64 bytes into the state `h`. `count` is how many bytes were hashed with it,
/// modulo 2^64.
pub(crate) fn compress(h: &mut [u32; 8], block: &[u8], count: u64, last: bool)
    requires { length block.now ≡ 64 }
    ensures { (t : ℕ) → count ≡ t % 2 ^ 64 → h.new ≡ compress h.old block.now t last }
{
    let m = words(block);
    let mut v = work_vector(h, count, last);
    rounds(&mut v, &m);
    *h = joined(h, &v);
}
