// Big-endian 4-byte numbers, read from and written to a lent slice at any offset.
#![tactic(auto)]

ghost use Rattle.std.specs.Prelude.{◌≡◌};
ghost use Rattle.words.specs.Word.{laid};
ghost use Rattle.big_words.specs.Big.{be_bytes};
ghost use Rattle.big_words.specs.Fast.{whole_big};

// The 4-byte number at offset `at`; 0 if it is not wholly within the slice.
pub fn big_at(s: &[u8], at: usize) -> u32
    ensures { result ≡ whole_big at s.now }
{
    match words::chunk_at(s, at) {
        Some(bytes) => u32::from_be_bytes(*bytes),
        None => 0,
    }
}

// Writes `w` at offset `at`; if it does not fit, no byte changes.
pub fn put_big(s: &mut [u8], at: usize, w: u32)
    ensures { s.new ≡ laid at (be_bytes 4 w) s.old }
{
    words::put(s, at, &w.to_be_bytes());
}
