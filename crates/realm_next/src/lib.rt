// The first Realm granule at or after an index, from the realm words (`realm_words`).
#![tactic(auto)]

ghost use Rattle.std.specs.Prelude.{◌≡◌, ◌-◌, ◌%◌, ◌^◌, ◌<◌};
ghost use Rattle.std.specs.Int.Count.{count_trailing_zeros};
ghost use Rattle.realm_words.specs.Answers.{code_of, index_code, realm_next_of};
ghost use Rattle.realm_next.specs.Steps.{hit_below};

use realm_words::Inval;

// ---- one word ----

// Returns the position of the lowest set bit; 64 if no bit is set.
fn first_bit(w: u64) -> usize
    ensures { (result ≡ count_trailing_zeros 64 w) × (0 < w → result < 64) }
{
    u64::trailing_zeros(w) as usize
}

// Returns the word with its bits below bit `k` cleared.
fn high_bits(w: u64, k: usize) -> u64
    requires { k < 64 }
    ensures { result ≡ w - w % 2 ^ k }
{
    w - (w & ((1u64 << k) - 1))
}

// ---- the search ----

// Returns `index`, or nothing if that is a spare bit (`index` >= `granules`).
fn hit_below(granules: usize, index: usize) -> Option<usize>
    ensures { result ≡ hit_below granules index }
{
    if index < granules { Some(index) } else { None }
}

// Returns the first Realm granule at or after `index`. Reads one word per step and no word after that of the hit. A set spare bit is no
// hit.
pub fn next(words: &[u64], granules: usize, index: usize) -> Result<Option<usize>, Inval>
    ensures value { result ≡ realm_next_of words.now granules index }
    ensures result_value { code_of result ≡ index_code words.now granules index }
{
    if !realm_words::words_fit(words, granules) {
        return Err(Inval);
    }
    if granules <= index {
        return Err(Inval);
    }
    let mut at = index / realm_words::WORD_GRANULES;
    let mut bits = high_bits(words[at], index % realm_words::WORD_GRANULES);
    // Not `position` over the words: the first word alone is masked, so what is done with a hit would stand twice.
    while bits == 0 {
        at += 1;
        if words.len() <= at {
            return Ok(None);
        }
        bits = words[at];
    }
    Ok(hit_below(granules, at * realm_words::WORD_GRANULES + first_bit(bits)))
}
