// Little-endian numbers in a slice: reads 8-byte words, 4-byte halves, 2-byte numbers and bytes at any offset, writes 8, 4 or 2 bytes and
// lists of words; copies, clears and cuts slices.
#![tactic(auto)]

ghost use Rattle.std.specs.Prelude.{◌≡◌, min, ◌+◌, ◌<◌, ◌≤◌, length, get_or, replicate, MatchOption};
ghost use Rattle.words.specs.Word.{le_of, le_bytes, part, num_at, word_at, u32_at, bytes_of, splice, laid, span_at, spanned, span_start, on_from};
ghost use Rattle.words.specs.Fast.{whole_word};

// Length of the manifest's page, of a granule and of the shared buffer, in bytes: as a number of the interface and as a length.
pub const PAGE_SIZE: u64 = 4096;

pub const PAGE_LEN: usize = 4096;

// 2^52. No bank, region or console ends above it.
pub const ADDRESS_LIMIT: u64 = 0x10_0000_0000_0000;

// 2^52 - 4096, the highest base of the manifest's page.
pub const BASE_MOST: u64 = 0xF_FFFF_FFFF_F000;

// A part of a slice: the `len` bytes [at, at + len).
#[derive(Clone, Copy)]
pub struct Span {
    pub at: usize,
    pub len: usize,
}

// `x` as 64 bits.
pub fn widen(x: u8) -> u64
    ensures { (result ≡ x) × (result < 0x100) }
{
    u64::from(x)
}

// The N bytes at `at`, if they are all in the slice.
pub fn chunk_at<const N: usize>(s: &[u8], at: usize) -> Option<&[u8; N]>
    ensures { MatchOption result (length s.now < at + N) (λ y. (at + N ≤ length s.now) × (y.now ≡ part at N s.now)) }
{
    s.get(at..)?.first_chunk()
}

// The number that at most 7 bytes encode.
fn number(bytes: &[u8]) -> u64
    requires { length bytes.now < 8 }
    ensures { result ≡ le_of bytes.now }
{
    bytes
        .iter()
        .rev()
        .fold(0, |sum, byte| sum << 8 | u64::from(*byte))
}

// The word at `at` if the slice has at most 7 bytes from there on.
fn tail_at(s: &[u8], at: usize) -> u64
    requires { length s.now < at + 8 }
    ensures { result ≡ word_at at s.now }
{
    match s.get(at..) {
        Some(rest) => number(rest),
        None => 0,
    }
}

// The word (8 bytes) at `at`. Bytes past the end count as 0 (PG5).
pub fn word_at(s: &[u8], at: usize) -> u64
    ensures { result ≡ word_at at s.now }
{
    match chunk_at(s, at) {
        Some(word) => u64::from_le_bytes(*word),
        None => tail_at(s, at),
    }
}

// The word at `at`, or 0 if its 8 bytes are not all in the slice. Loops over entries use it: with no case for a partial word, the compiler
// can vectorize them.
pub fn whole_word(s: &[u8], at: usize) -> u64
    ensures { result ≡ whole_word at s.now }
{
    match chunk_at(s, at) {
        Some(word) => u64::from_le_bytes(*word),
        None => 0,
    }
}

// The half (4 bytes) at `at`. Bytes past the end count as 0 (PG5).
pub fn u32_at(s: &[u8], at: usize) -> u64
    ensures { result ≡ u32_at at s.now }
{
    match chunk_at(s, at) {
        Some(half) => u64::from(u32::from_le_bytes(*half)),
        None => tail_at(s, at),
    }
}

// The byte at `at`; 0 past the end.
pub fn byte_at(s: &[u8], at: usize) -> u8
    ensures { result ≡ get_or s.now at 0 }
{
    s.get(at).copied().unwrap_or(0)
}

// The two-byte number at `at`. Bytes past the end count as 0.
pub fn u16_at(s: &[u8], at: usize) -> u64
    ensures { (result ≡ num_at 2 at s.now) × (result < 0x1_0000) }
{
    match chunk_at(s, at) {
        Some(pair) => u64::from(u16::from_le_bytes(*pair)),
        None => u64::from(byte_at(s, at)),
    }
}

// Writes `bytes` at `at`. If they do not all fit, no byte changes (PG5).
pub fn put(s: &mut [u8], at: usize, bytes: &[u8])
    ensures { s.new ≡ laid at bytes.now s.old }
{
    if at <= s.len() && bytes.len() <= s.len() - at {
        s[at..at + bytes.len()].copy_from_slice(bytes);
    }
}

// Writes the 8 bytes of `w` at `at`. If they do not all fit, no byte changes (PG5).
pub fn put_word(s: &mut [u8], at: usize, w: u64)
    ensures { s.new ≡ laid at (le_bytes 8 w) s.old }
{
    put(s, at, &w.to_le_bytes());
}

// Writes the low 4 bytes of `w` at `at`. If they do not all fit, no byte changes (PG5).
pub fn put_u32(s: &mut [u8], at: usize, w: u64)
    ensures { s.new ≡ laid at (le_bytes 4 w) s.old }
{
    put(s, at, &w.to_le_bytes()[..4]);
}

// Writes the low 2 bytes of `w` at `at`. If they do not all fit, no byte changes (PG5).
pub fn put_u16(s: &mut [u8], at: usize, w: u64)
    ensures { s.new ≡ laid at (le_bytes 2 w) s.old }
{
    put(s, at, &w.to_le_bytes()[..2]);
}

// Writes all of `words`, one after another, from `at` on. If they do not all fit, no byte changes.
pub fn put_words(s: &mut [u8], at: usize, words: &[u64])
    ensures { s.new ≡ laid at (bytes_of words.now) s.old }
{
    if at <= s.len() && words.len() <= (s.len() - at) / 8 {
        for (i, word) in words.iter().enumerate() {
            s[at + 8 * i..at + 8 * i + 8].copy_from_slice(&word.to_le_bytes());
        }
    }
}

// Sets every byte to 0.
pub fn clear(s: &mut [u8])
    ensures { s.new ≡ replicate (length s.old) 0 }
{
    s.fill(0);
}

// Copies all of `from` to the start of `to`. If `to` is shorter, no byte changes.
pub fn copy(to: &mut [u8], from: &[u8])
    ensures { to.new ≡ laid 0 from.now to.old }
{
    put(to, 0, from);
}

// The 8 bytes at `at` as a number: one sum of bytes, each read in place, which the compiler turns into one load.
fn read_u64(s: &[u8], at: usize) -> u64
    requires { at + 8 ≤ length s.now }
    ensures { result ≡ num_at 8 at s.now }
{
    widen(s[at])
        + widen(s[at + 1]) * 0x100
        + widen(s[at + 2]) * 0x1_0000
        + widen(s[at + 3]) * 0x100_0000
        + widen(s[at + 4]) * 0x1_0000_0000
        + widen(s[at + 5]) * 0x100_0000_0000
        + widen(s[at + 6]) * 0x1_0000_0000_0000
        + widen(s[at + 7]) * 0x100_0000_0000_0000
}

// Writes the low 1, 2, 4 or 8 bytes of `w` at `at`.
fn write_u8(s: &mut [u8], at: usize, w: u64)
    requires { at + 1 ≤ length s.old }
    ensures { s.new ≡ splice at (le_bytes 1 w) s.old }
{
    s[at] = (w % 0x100) as u8;
}

fn write_u16(s: &mut [u8], at: usize, w: u64)
    requires { at + 2 ≤ length s.old }
    ensures { s.new ≡ splice at (le_bytes 2 w) s.old }
{
    write_u8(s, at, w);
    write_u8(s, at + 1, w / 0x100);
}

fn write_u32(s: &mut [u8], at: usize, w: u64)
    requires { at + 4 ≤ length s.old }
    ensures { s.new ≡ splice at (le_bytes 4 w) s.old }
{
    write_u16(s, at, w);
    write_u16(s, at + 2, w / 0x1_0000);
}

fn write_u64(s: &mut [u8], at: usize, w: u64)
    requires { at + 8 ≤ length s.old }
    ensures { s.new ≡ splice at (le_bytes 8 w) s.old }
{
    write_u32(s, at, w);
    write_u32(s, at + 4, w / 0x1_0000_0000);
}

// Copies all of `from` to the start of `to`, as `copy` does, in a loop of its own: for an archive that needs no memmove, which `copy`
// calls. Each turn reads a word and writes it, as a number: one load and one store, or eight of each where the processor has no unaligned
// access.
pub fn copy_by_words(to: &mut [u8], from: &[u8])
    ensures { to.new ≡ laid 0 from.now to.old }
{
    if to.len() < from.len() {
        return;
    }
    let whole = from.len() / 8;
    for k in 0..whole {
        write_u64(to, 8 * k, read_u64(from, 8 * k));
    }
    for i in 8 * whole..from.len() {
        to[i] = from[i];
    }
}

// min(a, b).
pub fn smaller(a: u64, b: u64) -> u64
    ensures { result ≡ min a b }
{
    a.min(b)
}

// The span of `len` bytes at `at`. An empty span is at 0.
pub fn span_at(at: usize, len: usize) -> Span
    ensures { result ≡ span_at at len }
{
    if len == 0 {
        Span { at: 0, len: 0 }
    } else {
        Span { at, len }
    }
}

// The bytes of `s` in `span`, as a part of `s` itself. If `span` is not within `s`, an empty part at the start of `s`.
pub fn part_of(s: &[u8], span: Span) -> &[u8]
    ensures result_value { result.now ≡ spanned span s.now }
    ensures ref_ptr_value { result.ref_ptr ≡ on_from s.entry.ref_ptr (span_start span s.now) }
{
    if s.len() < span.at || s.len() - span.at < span.len {
        return &s[..0];
    }
    &s[span.at..span.at + span.len]
}
