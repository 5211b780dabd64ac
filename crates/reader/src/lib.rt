// The manifest reader: checks a lent page in place and returns a view of offsets in it.
#![tactic(auto)]

ghost use Rattle.std.specs.Prelude.{◌≡◌, ℕ, min, ◌≤◌, ◌<◌};
ghost use Rattle.versions.specs.Version.{minor_of};
ghost use Rattle.versions.specs.Edition.{section_count};
ghost use Rattle.sections.specs.Page.{version_at, count_at, pointer_at};
ghost use Rattle.sections.specs.Steps.{Copied};
ghost use Rattle.reader.specs.Answer.{code_in, shown_in, read_of};
ghost use Rattle.reader.specs.Reading.{shown_as, reading_answer, refusal_number, section_of, section_at, view_at, reading_of};
ghost use Rattle.reader.specs.Fast.{verdict_of, number_in, section_read};

use versions::Edition;

// What is shown of a section (RD10): absent (not in the edition), empty (24 zero bytes), or `count` entries at offset `at` of the page.
// Three states and no Option: the interface tells an absent section from an empty one (RD10, `Shown` in specs/Answer.antt).
#[derive(Clone, Copy)]
pub enum Section {
    Absent,
    Empty,
    Entries { at: usize, count: usize },
}

// Everything that an accepted page shows: its minor, the edition that it was read as, the platform pointer and the four sections.
#[derive(Clone, Copy)]
pub struct View {
    pub minor: u64,
    pub edition: u64,
    pub plat: u64,
    pub dram: Section,
    pub console: Section,
    pub ncoh: Section,
    pub coh: Section,
}

// Why a page is refused: length or base (-5), edition or version (-6), any other rule (-7).
#[derive(Clone, Copy, Debug, PartialEq, Eq)]
pub enum Refusal {
    Place,
    Version,
    Rules,
}

// The number of a refusal, as C sees it.
impl From<Refusal> for i32 {
    ghost from_gives = { λ code number. number ≡ refusal_number code };

    fn from(code: Refusal) -> i32 {
        match code {
            Refusal::Place => -5,
            Refusal::Version => -6,
            Refusal::Rules => -7,
        }
    }
}

// What is shown of section `k`, from the core that was judged. If `k` is in edition `e` and not empty, its pointer is not below `base`.
fn section_at(core: &[u8], base: u64, e: Edition, k: u8) -> Section
    requires { k < section_count e.minor → (count_at k core.now ≡ 0 → ⊥) → base ≤ pointer_at k core.now }
    ensures { result ≡ section_at e.minor base core.now k }
{
    if e.sections() <= k {
        return Section::Absent;
    }
    let count = sections::count_at(core, k);
    if count == 0 {
        return Section::Empty;
    }
    let pointer = sections::pointer_at(core, k);
    let at = (pointer - base) as usize;
    let count = count as usize;
    Section::Entries { at, count }
}

// The view of a page whose rules hold, from the core that was judged.
fn view_at(core: &[u8], base: u64, minor: u64, e: Edition) -> View
    requires { (k : ℕ) → k < section_count e.minor → (count_at k core.now ≡ 0 → ⊥) → base ≤ pointer_at k core.now }
    ensures { result ≡ view_at minor e.minor base core.now }
{
    View {
        minor,
        edition: e.minor,
        plat: words::word_at(core, sections::CORE_PLAT_DATA),
        dram: section_at(core, base, e, 0),
        console: section_at(core, base, e, 1),
        ncoh: section_at(core, base, e, 2),
        coh: section_at(core, base, e, 3),
    }
}

// The edition that a reader of `edition` reads a page of minor `minor` as: min(edition, minor).
pub fn edition_read(edition: u64, minor: u64) -> Edition
    ensures { result.minor ≡ min edition minor }
{
    Edition {
        minor: words::smaller(edition, minor),
    }
}

// Checks a lent page at `base` as a reader of `edition` (RD1, RD2). Returns the page's minor, or the first refusal in the order of the
// checks. If the page is accepted, `core` holds the core that was judged (`sections::judge`): a caller takes count, pointer and platform
// pointer from there, not from the page.
pub fn judge(page: &[u8], base: u64, edition: u64, core: &mut [u8; 112]) -> Result<u64, Refusal>
    ensures value { result ≡ verdict_of (reading_of edition base page.now) }
    ensures result_value { number_in result ≡ code_in (read_of edition base page.now) }
    ensures by_index { (w : ℕ) → result ≡ Ok w → Copied core.new page.now }
{
    if !sections::place_ok(base, page.len()) {
        return Err(Refusal::Place);
    }
    if !versions::is_edition(edition) {
        return Err(Refusal::Version);
    }
    let version = sections::version_at(page);
    if !versions::is_accepted(version) {
        return Err(Refusal::Version);
    }
    let minor = versions::minor(version);
    let e = edition_read(edition, minor);
    if !sections::judge(page, base, minor, e, core) {
        return Err(Refusal::Rules);
    }
    Ok(minor)
}

// The same without the core: the page's minor, or the first refusal.
pub fn judge_page(page: &[u8], base: u64, edition: u64) -> Result<u64, Refusal>
    ensures value { result ≡ verdict_of (reading_of edition base page.now) }
    ensures result_value { number_in result ≡ code_in (read_of edition base page.now) }
{
    let mut core = [0u8; 112];
    judge(page, base, edition, &mut core)
}

// Reads a lent page at `base` as a reader of `edition`. Returns everything that the page shows, or the first refusal in the order of the
// checks. The offsets in the view are those that the page's own pointers give.
pub fn read(page: &[u8], base: u64, edition: u64) -> Result<View, Refusal>
    ensures value { result ≡ reading_of edition base page.now }
    ensures result_value { reading_answer page.now result ≡ read_of edition base page.now }
{
    let mut core = [0u8; 112];
    let minor = judge(page, base, edition, &mut core)?;
    let e = edition_read(edition, minor);
    Ok(view_at(&core, base, minor, e))
}

// Section `k` of a lent page at `base`, as a reader of `edition` reads it, without building the view. Absent if the page is refused or `k`
// is above 3.
pub fn section_read(page: &[u8], base: u64, edition: u64, k: usize) -> Section
    ensures value { result ≡ section_read (reading_of edition base page.now) k }
    ensures page_value { shown_as (minor_of (version_at page.now)) k result page.now ≡ shown_in (read_of edition base page.now) k }
{
    let mut core = [0u8; 112];
    let Ok(minor) = judge(page, base, edition, &mut core) else {
        return Section::Absent;
    };
    if 3 < k {
        return Section::Absent;
    }
    section_at(&core, base, edition_read(edition, minor), k as u8)
}

// Section `k` of a view. Absent if `k` is above 3.
// A function: as a method of `View` it would read no plainer beside `section_read` and the lookups, which take the page first.
pub fn section_of(view: View, k: usize) -> Section
    ensures { result ≡ section_of view k }
{
    match k {
        0 => view.dram,
        1 => view.console,
        2 => view.ncoh,
        3 => view.coh,
        _ => Section::Absent,
    }
}
