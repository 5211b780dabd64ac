// Delegation. The granule table has one byte for each granule of the record's banks: 0 Non-secure, 1 Realm, 2 Root, 3 Secure. The realm
// words have one bit for each granule.
#![tactic(auto)]

ghost use Rattle.std.specs.Prelude.{◌≡◌, ℕ, List, true, ◌/◌, ◌<◌, ltb, eqb, length};
ghost use Rattle.words.specs.Tests.{both, Yes};
ghost use Rattle.codes.specs.Codes.{is_up, boot_params, gated, answer_of};
ghost use Rattle.banks.specs.Banks.{Granules, granule_count, granule_at};
ghost use Rattle.banks.specs.Fast.{has_one_bank};
ghost use Rattle.realm_words.specs.Answers.{words_fit, words_code};
ghost use Rattle.realm_words.specs.Bits.{realm_bit, put_bit};
ghost use Rattle.granule_rules.specs.Granules.{Moved, table_of, move_of, delegate_of, undelegate_of, moved_to};
ghost use Rattle.granule_rules.specs.Steps.{Inside, shared_code, move_at, MoveResult};
ghost use Rattle.granule_rules.specs.Lists.{list_by, move_list_of, delegate_list_of, undelegate_list_of};

use banks::GranulesImage;
use boot::{Params, Record};
use codes::{Answer, Code};
pub use granule_rules::Direction;

// Writes the bit of granule `index` for its new byte. Does not check the number of words: each call has checked it once.
fn put_bit(words: &mut [u64], index: usize, byte: u8)
    requires { index / 64 < length words.old }
    ensures { words.new ≡ put_bit words.old index (realm_bit byte) }
{
    let at = index / realm_words::WORD_GRANULES;
    words[at] = realm_words::with_bit(words[at], index, byte);
}

// Moves the granule of `address`, with the parameters of a boot record that is up.
fn move_at(
    params: Params,
    granule: Option<usize>,
    direction: Direction,
    table: &mut [u8],
    words: &mut [u64],
    address: u64,
) -> Result<(), Code>
    requires { Inside granule table.old words.old }
    ensures { (g : Granules) → granule ≡ granule_at g (length table.old) address →
        MoveResult result table.new words.new (move_at params g direction (table_of table.old words.old) address) }
{
    let Some(at) = granule else {
        return Err(Code::BadAddr); // no granule of the table
    };
    if direction.is_shared_page(params, address) {
        return Err(Code::BadAddr);
    }
    if table[at] != direction.from_byte() {
        return Err(Code::BadPas);
    }
    let to = direction.to_byte();
    table[at] = to;
    put_bit(words, at, to);
    Ok(())
}

// Whether the record has granules and the table has n = `count` bytes. Otherwise no address is on a granule.
fn table_fits(count: u64, n: usize) -> bool
    ensures { result ≡ both (ltb 0 count) (eqb count n) }
{
    0 < count && count == n as u64
}

// Makes the checks that do not depend on the address, in order: the number of words, the boot record, the table's length. Returns what the
// boot record keeps.
fn shared_checks(
    state: Record,
    granules: &[u64; 33],
    n: usize,
    words: &[u64],
) -> Result<Params, Code>
    ensures { result ≡ gated (shared_code state granules.now n words.now) (boot_params state) }
{
    let count = banks::granule_count(granules);
    if !realm_words::words_fit(words, count as usize) {
        return Err(Code::Inval);
    }
    let params = codes::up_params(state)?;
    if !table_fits(count, n) {
        return Err(Code::BadAddr);
    }
    Ok(params)
}

// ---- a single call ----

fn move_one(
    state: Record,
    granules: &GranulesImage,
    direction: Direction,
    table: &mut [u8],
    words: &mut [u64],
    address: u64,
) -> Result<(), Code>
    ensures { MoveResult result table.new words.new (move_of state granules.now direction (table_of table.old words.old) address) }
{
    let params = shared_checks(state, granules, table.len(), words)?;
    let found = banks::find_from(granules, banks::no_bank(), address);
    move_at(params, found.granule, direction, table, words, address)
}

// ---- the shortcut for a single call: most boards have one bank ----

// Whether the granule record has one bank of `n` granules, and the number of words is right.
fn takes_shortcut(granules: &GranulesImage, n: usize, words: &[u64]) -> bool
    ensures { result ≡ both (has_one_bank granules.now n) (words_fit words.now n) }
{
    banks::has_one_bank(granules, n) && realm_words::words_fit(words, n)
}

// `move_one` without loops over the banks.
fn move_shortcut(
    state: Record,
    granules: &GranulesImage,
    direction: Direction,
    table: &mut [u8],
    words: &mut [u64],
    address: u64,
) -> Result<(), Code>
    requires { (is_up state ≡ true) × Yes (has_one_bank granules.now (length table.old)) × Yes (words_fit words.old (length table.old)) }
    ensures { MoveResult result table.new words.new (move_of state granules.now direction (table_of table.old words.old) address) }
{
    let params = codes::boot_params(state);
    let granule = banks::find_first(granules, address);
    move_at(params, granule, direction, table, words, address)
}

// The answer of a single call whose move came out as `moved`: OK, or the code of the refusal; x1 and x2 are 0.
fn answered(moved: Result<(), Code>) -> Answer
    ensures { (bytes ws : List ℕ) → (m : Moved) → m.answer ≡ answer_of m.answer.code 0 0 → MoveResult moved bytes ws m →
        moved_to result bytes ws ≡ m }
{
    match moved {
        Ok(()) => Answer::ok(0, 0),
        Err(code) => Answer::refused(code),
    }
}

// A call in either direction, by the shortcut if the records and the words allow it. Each command gets a copy of its own, since one copy for
// both took half as long again, and each way an answer of its own, since one answer for both went over our limits (docs/DECISIONS.md).
#[inline(always)]
fn single(
    state: Record,
    granules: &GranulesImage,
    direction: Direction,
    table: &mut [u8],
    words: &mut [u64],
    address: u64,
) -> Answer
    ensures { moved_to result table.new words.new ≡ move_of state granules.now direction (table_of table.old words.old) address }
{
    if codes::is_up(state) && takes_shortcut(granules, table.len(), words) {
        return answered(move_shortcut(state, granules, direction, table, words, address));
    }
    answered(move_one(state, granules, direction, table, words, address))
}

// ---- a list of calls ----

// Makes the single calls of a list in order, up to the first refusal; x1 is the number of granules moved. `move_list` has made the checks
// that they share.
fn move_each(
    params: Params,
    granules: &GranulesImage,
    direction: Direction,
    table: &mut [u8],
    words: &mut [u64],
    addresses: &[u64],
) -> Answer
    requires { (0 < granule_count granules.now) × (granule_count granules.now ≡ length table.old) × Yes (words_fit words.old (granule_count granules.now)) }
    ensures { moved_to result table.new words.new ≡ list_by (move_at params granules.now direction) 0 (table_of table.old words.old) addresses.now }
{
    let mut bank = banks::no_bank();
    for (i, address) in addresses.iter().enumerate() {
        let found = banks::find_from(granules, bank, *address);
        if let Err(code) = move_at(params, found.granule, direction, table, words, *address) {
            return codes::answer_with(code, i as u64, 0);
        }
        bank = found.bank;
    }
    Answer::ok(addresses.len() as u64, 0)
}

// An empty list is OK if the number of words is right, even if the boot record is not up.
fn move_none(granules: &[u64; 33], words: &[u64]) -> Answer
    ensures { result ≡ answer_of (words_code words.now (granule_count granules.now)) 0 0 }
{
    let count = banks::granule_count(granules);
    if !realm_words::words_fit(words, count as usize) {
        return Answer::refused(Code::Inval);
    }
    Answer::ok(0, 0)
}

fn move_list(
    state: Record,
    granules: &GranulesImage,
    direction: Direction,
    table: &mut [u8],
    words: &mut [u64],
    addresses: &[u64],
) -> Answer
    ensures { moved_to result table.new words.new ≡ move_list_of state granules.now direction (table_of table.old words.old) addresses.now }
{
    if addresses.is_empty() {
        return move_none(granules, words);
    }
    match shared_checks(state, granules, table.len(), words) {
        Ok(params) => move_each(params, granules, direction, table, words, addresses),
        Err(code) => Answer::refused(code),
    }
}

// ---- the commands ----

// 0xC40001B0 (CM2): makes the granule at `address` Realm, if it is Non-secure.
pub fn delegate(
    state: Record,
    granules: &GranulesImage,
    table: &mut [u8],
    words: &mut [u64],
    address: u64,
) -> Answer
    ensures { moved_to result table.new words.new ≡ delegate_of state granules.now (table_of table.old words.old) address }
{
    single(state, granules, Direction::Delegate, table, words, address)
}

// 0xC40001B1 (CM3): makes the granule at `address` Non-secure, if it is Realm.
pub fn undelegate(
    state: Record,
    granules: &GranulesImage,
    table: &mut [u8],
    words: &mut [u64],
    address: u64,
) -> Answer
    ensures { moved_to result table.new words.new ≡ undelegate_of state granules.now (table_of table.old words.old) address }
{
    single(
        state,
        granules,
        Direction::Undelegate,
        table,
        words,
        address,
    )
}

// Delegates the granules at `addresses` in order, up to the first refusal; x1 is the number delegated (LG1 to LG3).
pub fn delegate_list(
    state: Record,
    granules: &GranulesImage,
    table: &mut [u8],
    words: &mut [u64],
    addresses: &[u64],
) -> Answer
    ensures { moved_to result table.new words.new ≡ delegate_list_of state granules.now (table_of table.old words.old) addresses.now }
{
    move_list(
        state,
        granules,
        Direction::Delegate,
        table,
        words,
        addresses,
    )
}

// Undelegates the granules at `addresses` in order, up to the first refusal; x1 is the number undelegated (LG1 to LG3).
pub fn undelegate_list(
    state: Record,
    granules: &GranulesImage,
    table: &mut [u8],
    words: &mut [u64],
    addresses: &[u64],
) -> Answer
    ensures { moved_to result table.new words.new ≡ undelegate_list_of state granules.now (table_of table.old words.old) addresses.now }
{
    move_list(
        state,
        granules,
        Direction::Undelegate,
        table,
        words,
        addresses,
    )
}
