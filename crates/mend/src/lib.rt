// The mender: mends a damaged page in place, part by part. The reader's own rules decide whether a part is kept, on the page as mended so
// far: a part that was dropped is zero there, so it cannot overlap a later part.
#![tactic(auto)]

ghost use Rattle.std.specs.Prelude.{true, not, [], ◌∷◌, ◌≡◌, ◌+◌, ◌*◌, min, eqb, length};
ghost use Rattle.std.specs.Option.{is_none};
ghost use Rattle.words.specs.Word.{le_bytes, bytes_of};
ghost use Rattle.sections.specs.Page.{place_ok, padding_at, platform_at};
ghost use Rattle.mend.specs.Mend.{minor_at, mend_changes, mended_of, mend_answer, mend_of, mended_page};
ghost use Rattle.mend.specs.Steps.{page_to, zeroed, plat_kept, section_goes};
ghost use Rattle.mend.specs.Report.{mended_number, report_words};

use reader::Refusal;
use versions::Edition;

// Which of the six parts were changed.
#[derive(Clone, Copy)]
pub struct Changes {
    pub padding: bool,
    pub plat: bool,
    pub dram: bool,
    pub console: bool,
    pub ncoh: bool,
    pub coh: bool,
}

// The addresses [from, to) of the platform's fields.
#[derive(Clone, Copy)]
struct KeptFields {
    from: u64,
    to: u64,
}

// Zeroes the padding if it is not zero. Returns whether it did.
fn mend_padding(page: &mut [u8]) -> bool
    ensures { (result ≡ not (eqb (padding_at page.old) 0)) × (page.new ≡ zeroed result 4 (le_bytes 4 0) page.old) }
{
    if sections::padding_at(page) == 0 {
        return false;
    }
    words::put_u32(page, sections::CORE_PADDING, 0);
    true
}

// Zeroes the platform pointer if it breaks its rule or points at fields that break theirs. Returns the addresses of the fields that it kept.
fn mend_plat(page: &mut [u8], base: u64, e: Edition) -> Option<KeptFields>
    requires { place_ok base (length page.old) ≡ true }
    ensures { (result ≡ plat_kept e.minor base (platform_at base page.old)) × (page.new ≡ zeroed (is_none result) 8 (le_bytes 8 0) page.old) }
{
    let Some(taken) = sections::plat_rule(page, base, e) else {
        words::put_word(page, sections::CORE_PLAT_DATA, 0);
        return None;
    };
    let from = words::word_at(page, sections::CORE_PLAT_DATA);
    let to = from + (taken as u64);
    Some(KeptFields { from, to })
}

// Zeroes section `k` if the edition has it and it breaks its rule, or overlaps an earlier section or the fields. Returns whether it did.
fn mend_section(
    page: &mut [u8],
    base: u64,
    minor: u64,
    e: Edition,
    fields: KeptFields,
    k: u8,
) -> bool
    requires { place_ok base (length page.old) ≡ true }
    ensures { (result ≡ section_goes minor e.minor base fields k page.old) × (page.new ≡ zeroed result (16 + 24 * k) (bytes_of (0 ∷ 0 ∷ 0 ∷ [])) page.old) }
{
    if e.sections() <= k {
        return false;
    }
    let from = fields.from;
    let to = fields.to;
    if sections::keeps_section(page, base, minor, e, k, from, to) {
        return false;
    }
    words::put_words(
        page,
        sections::CORE_COUNT + sections::SECTION_BYTES * (k as usize),
        &[0, 0, 0],
    );
    true
}

// Mends the six parts in order.
fn mend_parts(page: &mut [u8], base: u64, minor: u64, e: Edition) -> Changes
    requires { (place_ok base (length page.old) ≡ true) × (minor ≡ minor_at page.old) × (e.minor ≡ min 4 minor) }
    ensures { (result ≡ mend_changes base page.old) × (page.new ≡ page_to 6 base page.old) }
{
    let padding = mend_padding(page);
    let kept = mend_plat(page, base, e);
    let plat = kept.is_none();
    // Dropped fields overlap nothing.
    let fields = kept.unwrap_or(KeptFields { from: 0, to: 0 });
    let dram = mend_section(page, base, minor, e, fields, 0);
    let console = mend_section(page, base, minor, e, fields, 1);
    let ncoh = mend_section(page, base, minor, e, fields, 2);
    let coh = mend_section(page, base, minor, e, fields, 3);
    Changes {
        padding,
        plat,
        dram,
        console,
        ncoh,
        coh,
    }
}

// Mends the lent page at `base`, read as edition min(4, minor) (MD2). A page is refused for its place (-5) or its version (-6), and stays
// unchanged (MD1).
pub fn mend(page: &mut [u8], base: u64) -> Result<Changes, Refusal>
    ensures value { result ≡ mended_of base page.old }
    ensures page_after { page.new ≡ mended_page base page.old }
    ensures result_value { mend_answer result ≡ mend_of base page.old }
{
    if !sections::place_ok(base, page.len()) {
        return Err(Refusal::Place);
    }
    let version = sections::version_at(page);
    if !versions::is_accepted(version) {
        return Err(Refusal::Version);
    }
    let minor = versions::minor(version);
    let e = reader::edition_read(4, minor);
    Ok(mend_parts(page, base, minor, e))
}

// The number of an answer: 0, or the code of the refusal.
pub fn number(mended: Result<Changes, Refusal>) -> i32
    ensures { result ≡ mended_number mended }
{
    match mended {
        Ok(_) => 0,
        Err(code) => i32::from(code),
    }
}

// One word for each of the six parts: 1 if it was changed. All zero if the page was refused.
pub fn report_words(mended: Result<Changes, Refusal>) -> [u64; 6]
    ensures { result ≡ report_words mended }
{
    match mended {
        Ok(changes) => [
            u64::from(changes.padding),
            u64::from(changes.plat),
            u64::from(changes.dram),
            u64::from(changes.console),
            u64::from(changes.ncoh),
            u64::from(changes.coh),
        ],
        Err(_) => [0u64; 6],
    }
}
