// Realm words, next to the granule table: granule i is bit i mod 64 of word i / 64, set if the table's byte is Realm; spare bits are zero.
#![tactic(auto)]

ghost use Rattle.std.specs.Prelude.{◌≡◌, ◌+◌, ◌%◌, ◌^◌, ◌<◌, ◌≤◌, length, take, drop};
ghost use Rattle.std.specs.Int.Count.{ones};
ghost use Rattle.realm_words.specs.Bits.{realm_bit, packed, words_for, with_bit};
ghost use Rattle.realm_words.specs.Answers.{code_of, words_fit, both_fit, words_code, table_code, realm_count_of, realm_agree_of, Built, realm_build_of};

// Granules of one realm word: one bit each.
pub const WORD_GRANULES: usize = 64;

// The only refusal of a call on words: a wrong number of words, a table of another length, or an index that is no granule's.
#[derive(Clone, Copy, PartialEq, Eq, Debug)]
pub struct Inval;

// ceil(granules / 64). `granules + 63` could overflow.
fn words_for(granules: usize) -> usize
    ensures { result ≡ words_for granules }
{
    if granules % WORD_GRANULES == 0 {
        return granules / WORD_GRANULES;
    }
    granules / WORD_GRANULES + 1
}

// Whether there are ceil(granules / 64) words: the first check of every call on words.
pub fn words_fit(words: &[u64], granules: usize) -> bool
    ensures { result ≡ words_fit words.now granules }
{
    words.len() == words_for(granules)
}

// ---- one word ----

// Returns the number of set bits of a word.
fn ones_in(w: u64) -> u64
    ensures { (result ≡ ones w) × (result ≤ 64) }
{
    u64::count_ones(w) as u64
}

// Returns the bits of a word below bit `k`.
fn low_bits(w: u64, k: usize) -> u64
    requires { k < 64 }
    ensures { result ≡ w % 2 ^ k }
{
    w & ((1u64 << k) - 1)
}

// Returns the bit for a byte of the table: 1 if it is Realm.
fn realm_bit(byte: u8) -> u64
    ensures { (result ≡ realm_bit byte) × (result ≤ 1) }
{
    if byte == 1 { 1 } else { 0 }
}

// Returns the word with the bit of granule `index` set if `byte` is Realm, and cleared otherwise.
pub fn with_bit(w: u64, index: usize, byte: u8) -> u64
    ensures { result ≡ with_bit w (index % 64) (realm_bit byte) }
{
    let k = index % WORD_GRANULES;
    let bit = realm_bit(byte);
    let unit = 1u64 << k;
    w - (w & unit) + (bit << k)
}

// ---- answers from the words alone ----

// Returns the number of Realm granules. Spare bits are not counted (RW7).
pub fn count(words: &[u64], granules: usize) -> Result<u64, Inval>
    ensures value { result ≡ realm_count_of words.now granules }
    ensures result_value { code_of result ≡ words_code words.now granules }
{
    if !words_fit(words, granules) {
        return Err(Inval);
    }
    let whole = granules / WORD_GRANULES;
    let mut sum: u64 = 0;
    for word in &words[..whole] {
        sum += ones_in(*word);
    }
    let rest = granules % WORD_GRANULES;
    if rest == 0 {
        return Ok(sum);
    }
    Ok(sum + ones_in(low_bits(words[whole], rest)))
}

// ---- words and table ----

// Returns the bits of at most 64 bytes as one number; the first byte is bit 0.
fn packed_of(block: &[u8]) -> u64
    requires { length block.now ≤ 64 }
    ensures { result ≡ packed block.now }
{
    let mut bits: u64 = 0;
    for byte in block.iter().rev() {
        bits = realm_bit(*byte) + 2 * bits;
    }
    bits
}

// Returns the bits of the eight granules [index, index + 8).
fn octet(table: &[u8], index: usize) -> u64
    requires { index + 8 ≤ length table.now }
    ensures { (result ≡ packed (take 8 (drop index table.now))) × (result < 0x100) }
{
    let end = index + 8;
    packed_of(&table[index..end])
}

// Returns the word of the granules [index, min(index + 64, table.len())). The eight octets do not depend on each other, so the processor
// can compute them in parallel.
fn word_from(table: &[u8], index: usize) -> u64
    requires { index ≤ length table.now }
    ensures { result ≡ packed (take 64 (drop index table.now)) }
{
    if table.len() - index < WORD_GRANULES {
        return packed_of(&table[index..]);
    }
    octet(table, index)
        + octet(table, index + 8) * 0x100
        + octet(table, index + 16) * 0x1_0000
        + octet(table, index + 24) * 0x100_0000
        + octet(table, index + 32) * 0x1_0000_0000
        + octet(table, index + 40) * 0x100_0000_0000
        + octet(table, index + 48) * 0x1_0000_0000_0000
        + octet(table, index + 56) * 0x100_0000_0000_0000
}

// Whether the table has `granules` bytes and there are ceil(granules / 64) words.
fn both_fit(table: &[u8], words: &[u64], granules: usize) -> bool
    ensures { result ≡ both_fit table.now words.now granules }
{
    words_fit(words, granules) && table.len() == granules
}

// Whether words and table agree, with all spare bits zero (RW6).
pub fn agrees(table: &[u8], words: &[u64], granules: usize) -> Result<bool, Inval>
    ensures value { result ≡ realm_agree_of table.now words.now granules }
    ensures result_value { code_of result ≡ table_code table.now words.now granules }
{
    if !both_fit(table, words, granules) {
        return Err(Inval);
    }
    for (i, word) in words.iter().enumerate() {
        if *word != word_from(table, i * WORD_GRANULES) {
            return Ok(false);
        }
    }
    Ok(true)
}

// Makes the words agree with the table (RW6). If refused, it changes no word.
pub fn build(table: &[u8], words: &mut [u64], granules: usize) -> Result<(), Inval>
    ensures fact { ◌≡◌ {A = Built} (record { done = result; words = words.new }) (realm_build_of table.now words.old granules) }
    ensures result_value { code_of result ≡ table_code table.now words.old granules }
{
    if !both_fit(table, words, granules) {
        return Err(Inval);
    }
    for (i, word) in words.iter_mut().enumerate() {
        *word = word_from(table, i * WORD_GRANULES);
    }
    Ok(())
}
