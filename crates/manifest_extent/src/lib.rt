// The kept bytes that a manifest needs (KB5): the number of bytes at the page's start that no runtime command may change.
#![tactic(auto)]

ghost use Rattle.std.specs.Prelude.{◌≡◌, ◌≤◌, max};
ghost use Rattle.versions.specs.Edition.{core};
ghost use Rattle.manifest_extent.specs.Kept.{section_end, fields_reach, kept_for};

use reader::{Section, View};
use versions::Edition;

// The offset after the array of a section `k` in a page of 4,096 bytes; 0 if it has no array there.
fn section_end(section: Section, k: usize) -> u64
    ensures { (result ≡ section_end k section) × (result ≤ 4096) }
{
    let place = lookup::place_in(words::PAGE_LEN, section, k);
    (place.at + place.len) as u64
}

// The offset after the fields at platform pointer `plat`: 0 without a pointer, 4,096 if they are broken or end past the page.
fn fields_reach(page: &[u8], plat: u64) -> u64
    ensures { (result ≡ fields_reach plat page.now) × (result ≤ 4096) }
{
    if plat == 0 {
        return 0;
    }
    let at = (plat % words::PAGE_SIZE) as usize;
    let Some(n) = fields::scan_at(page, at) else {
        return words::PAGE_SIZE;
    };
    if words::PAGE_LEN - at < n {
        return words::PAGE_SIZE;
    }
    (at + n) as u64
}

// The larger of the core size of `edition` and the end of the fields at `plat`.
pub fn core_end(page: &[u8], edition: u64, plat: u64) -> u64
    ensures { (result ≡ max (core edition) (fields_reach plat page.now)) × (result ≤ 4096) }
{
    let edition = Edition { minor: edition };
    edition.core_size().max(fields_reach(page, plat))
}

// max(end, end of the array of a section `k`).
pub fn higher_end(end: u64, section: Section, k: usize) -> u64
    ensures { result ≡ max end (section_end k section) }
{
    end.max(section_end(section, k))
}

// The number of bytes at the page's start that the manifest of a view takes: the highest end of core, fields and arrays, rounded up to a
// multiple of 8. If cold boot keeps this many, no runtime command changes what a reader of the view's edition sees. At most 4,096 for any
// view and page.
pub fn kept_for(page: &[u8], view: View) -> u64
    ensures { (result ≡ kept_for view page.now) × (result ≤ 4096) }
{
    let end = core_end(page, view.edition, view.plat);
    let end = higher_end(end, view.dram, 0);
    let end = higher_end(end, view.console, 1);
    let end = higher_end(end, view.ncoh, 2);
    let end = higher_end(end, view.coh, 3);
    8 * ((end + 7) / 8)
}
