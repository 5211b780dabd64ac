// Packing and mending of manifest pages for C and Rust, for tools on a host. No boot and no runtime command needs them.
#![tactic(auto)]

ghost use Rattle.std.specs.Prelude.{◌≡◌, ℕ, ◌<◌, length, get_or};
ghost use Rattle.pack.specs.Pack.{pack_of, target_after, packed_number};
ghost use Rattle.mend.specs.Mend.{mended_of, mended_page};
ghost use Rattle.mend.specs.Report.{mended_number, report_words};

// Packs the page at `base` into a target for the same base. Returns 0, the code of a refused page, or 1 (W1) for a target that is not 4,096 bytes
// long.
#[unsafe(no_mangle)]
pub extern "C" fn pbeam_pack(page: &[u8], base: u64, target: &mut [u8]) -> i32
    ensures value { result ≡ packed_number (pack_of base (length target.old) page.now) }
    ensures target_after { target.new ≡ target_after target.old (pack_of base (length target.old) page.now) }
    ensures by_index { (i : ℕ) → get_or page.now i 0 < 256 }
{
    pack::number(pack::pack(page, base, target))
}

// Mends the page at `base`: zeroes each part in the core that breaks a rule or overlaps a part kept before it. Returns 0 and sets `changed[i]` to 1
// for each changed part and to 0 for the others; or returns the code, sets `changed` to zeros and leaves the page unchanged.
#[unsafe(no_mangle)]
pub extern "C" fn pbeam_mend(page: &mut [u8], base: u64, changed: &mut [u64; 6]) -> i32
    ensures value { result ≡ mended_number (mended_of base page.old) }
    ensures changed_after { changed.new ≡ report_words (mended_of base page.old) }
    ensures page_after { page.new ≡ mended_page base page.old }
{
    let mended = mend::mend(page, base);
    *changed = mend::report_words(mended);
    mend::number(mended)
}

// The archive's version, 0.4.0, as major * 65,536 + minor * 256 + patch. include/potterbeam_pages.h refers to this name, so an object that was compiled with
// the header of another version does not link.
#[unsafe(no_mangle)]
pub extern "C" fn pbeam_pages_version_0_4_0() -> u64
    ensures { result ≡ 1024 }
{
    1024
}
