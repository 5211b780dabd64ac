// The kit for C and Rust: exports every entry except packer and mender (`potterbeam_pages`) with the prefix `pbeam_`. The caller lends each
// state as an image of words; a result is a number or is written to lent words.
#![tactic(auto)]

ghost use Rattle.std.specs.Prelude.{◌≡◌, [], ◌∷◌, ℕ, ◌+◌, ◌*◌, ◌≤◌, ◌<◌, length, true, false};
ghost use Rattle.words.specs.Word.{splice};
ghost use Rattle.versions.specs.Edition.{section_count};
ghost use Rattle.sections.specs.Page.{count_at, pointer_at};
ghost use Rattle.words.specs.Tests.{Yes};
ghost use Rattle.reader.specs.Answer.{code_in, count_in, word_in, fields_shown, read_of};
ghost use Rattle.reader.specs.Reading.{section_of, reading_answer, section_at, view_at};
ghost use Rattle.fields.specs.Steps.{step_at};
ghost use Rattle.lookup.specs.Lookup.{span_of, span_in};
ghost use Rattle.field_lookup.specs.Fields.{first_in, rest_in, nth_in, of_tag, field_as};
ghost use Rattle.field_lookup.specs.Steps.{shown_from, start_at, nth_place, tag_place};
ghost use Rattle.lookup.specs.Consoles.{console_named};
ghost use Rattle.manifest_extent.specs.Kept.{kept_for};
ghost use Rattle.text_lines.specs.Text.{lay_clipped, listing_of};
ghost use Rattle.writer_checks.specs.Description.{description_of};
ghost use Rattle.writer_rules.specs.Write.{description_fits};
ghost use Rattle.writer_rules.specs.Wrote.{page_after};
ghost use Rattle.versions.specs.Version.{version_ok, later, agreed};
ghost use Rattle.boot.specs.declared.Record.TheVariants.{Closed};
ghost use Rattle.boot.specs.Boot.{cold_code, cold_next, warm_code, warm_next};
ghost use Rattle.banks.specs.Banks.{granule_count};
ghost use Rattle.realm_words.specs.Answers.{realm_count_of, realm_next_of, realm_agree_of};
ghost use Rattle.granule_rules.specs.declared.Direction.{Direction};
ghost use Rattle.attest.specs.Key.{realm_key_of};
ghost use Rattle.codes.specs.Codes.{x0_of};
ghost use Rattle.token_rules.specs.Token.{buffer_code, challenge_span};
ghost use Rattle.features.specs.Features.{features_of, update_of, forward_of};
ghost use Rattle.images.specs.Image.{record_of, record_words, register_words, work_words, section_words, view_of, view_words, answer_words, made_number, span_words, field_words, console_number};
ghost use Rattle.images.specs.Realm.{number_x0, number_words, hit_x0, hit_words, agreement_x0};
ghost use Rattle.queue_image.specs.Image.{lists_in, oldest_words};
ghost use Rattle.export_rules.specs.Exports.{write_in, SetUpLeft, set_up_in, MoveLeft, move_in, move_list_in, BuildLeft, build_in};
ghost use Rattle.export_rules.specs.Exports.{TokenLeft, token_in, SigningLeft, signing_in, SignLeft, sign_in, CallLeft, call_lent, call_in};

use boot::Record;
use codes::Code;
use runtime::Kind;
use versions::Edition;

// ---- Manifest ----

// Writes x, y and z to view[at], view[at + 1] and view[at + 2].
fn put_three(view: &mut [u64], at: usize, x: u64, y: u64, z: u64)
    requires { at + 3 ≤ length view.old }
    ensures { view.new ≡ splice at (x ∷ y ∷ z ∷ []) view.old }
{
    view[at] = x;
    view[at + 1] = y;
    view[at + 2] = z;
}

// Writes section `k` of an accepted page to `view`. `core` is the page's core, `e` the edition it is read as.
fn show_section(core: &[u8], base: u64, e: Edition, k: u8, view: &mut [u64])
    requires { (k ≤ 3) × (length view.old ≡ 15) × (k < section_count e.minor → (count_at k core.now ≡ 0 → ⊥) → base ≤ pointer_at k core.now) }
    ensures { view.new ≡ splice (3 + 3 * k) (section_words (section_at e.minor base core.now k)) view.old }
{
    let at = 3 + 3 * (k as usize);
    if e.sections() <= k {
        put_three(view, at, 0, 0, 0);
        return;
    }
    let count = sections::count_at(core, k);
    if count == 0 {
        put_three(view, at, 1, 0, 0);
        return;
    }
    let from = sections::pointer_at(core, k) - base;
    put_three(view, at, 2, from, count);
}

// Writes the view of an accepted page directly to `view`, from the core that was judged.
fn show(core: &[u8], base: u64, minor: u64, e: Edition, view: &mut [u64])
    requires { (length view.old ≡ 15)
        × ((k : ℕ) → k < section_count e.minor → (count_at k core.now ≡ 0 → ⊥) → base ≤ pointer_at k core.now) }
    ensures { view.new ≡ view_words (view_at minor e.minor base core.now) }
{
    put_three(view, 0, minor, e.minor, words::word_at(core, 8));
    show_section(core, base, e, 0, view);
    show_section(core, base, e, 1, view);
    show_section(core, base, e, 2, view);
    show_section(core, base, e, 3, view);
}

// Reads the page at `base` as a reader of `edition`. Returns 0 and fills `view`, or returns the code and zeroes `view`. The view is written from the
// core that was judged, never read from the page again: its places are within the page even if another CPU writes the page during the call.
#[unsafe(no_mangle)]
pub extern "C" fn pbeam_read(page: &[u8], base: u64, edition: u64, view: &mut [u64; 15]) -> i32
    ensures value { result ≡ code_in (read_of edition base page.now) }
    ensures view_after { view.new ≡ answer_words base page.now (read_of edition base page.now) }
{
    let mut core = [0u8; 112];
    match reader::judge(page, base, edition, &mut core) {
        Ok(minor) => {
            show(
                &core,
                base,
                minor,
                reader::edition_read(edition, minor),
                view,
            );
            0
        }
        Err(code) => {
            *view = [0u64; 15];
            i32::from(code)
        }
    }
}

// Reads the page at `base` as a reader of `edition`. Writes offset and length of the array of `section` to `place`, (0, 0) if there is no
// array.
#[unsafe(no_mangle)]
pub extern "C" fn pbeam_array(
    page: &[u8],
    base: u64,
    edition: u64,
    section: usize,
    place: &mut [u64; 2],
)
    ensures { place.new ≡ span_words (span_in base page.now (read_of edition base page.now) section) }
{
    *place = images::span_words(lookup::place(page, base, edition, section));
}

// Writes offset and length of the array of a view's section to `place`, (0, 0) if there is no array in the page.
#[unsafe(no_mangle)]
pub extern "C" fn pbeam_array_of(
    page: &[u8],
    view: &[u64; 15],
    section: usize,
    place: &mut [u64; 2],
)
    ensures { place.new ≡ span_words (span_of section (section_of (view_of view.now) section) (length page.now)) }
{
    let wanted = images::section_of(view, section);
    *place = images::span_words(lookup::place_in(page.len(), wanted, section));
}

// The number of entries in a view's section.
#[unsafe(no_mangle)]
pub extern "C" fn pbeam_count(page: &[u8], view: &[u64; 15], section: usize) -> usize
    ensures { result ≡ count_in (reading_answer page.now (Ok (view_of view.now))) section }
{
    lookup::count_in(page, images::section_of(view, section), section)
}

// Word `word` of entry `entry` of a view's section, 0 if there is no such word.
#[unsafe(no_mangle)]
pub extern "C" fn pbeam_word(
    page: &[u8],
    view: &[u64; 15],
    section: usize,
    entry: usize,
    word: usize,
) -> u64
    ensures { result ≡ word_in (reading_answer page.now (Ok (view_of view.now))) section entry word }
{
    let wanted = images::section_of(view, section);
    lookup::word_in(page, view[0], wanted, section, entry, word)
}

// The index of the view's first console with these 8 bytes of name, or 2^64 - 1 if no console has them.
#[unsafe(no_mangle)]
pub extern "C" fn pbeam_console_named(page: &[u8], view: &[u64; 15], name: &[u8; 8]) -> usize
    ensures { result ≡ console_number (console_named (reading_answer page.now (Ok (view_of view.now))) name.now) }
{
    images::console_number(lookup::find_console(page, images::view_of(view), name))
}

// The number of fields that a view shows.
#[unsafe(no_mangle)]
pub extern "C" fn pbeam_field_count(page: &[u8], view: &[u64; 15]) -> usize
    ensures { result ≡ length (fields_shown (reading_answer page.now (Ok (view_of view.now)))) }
{
    field_lookup::field_count(page, images::view_of(view))
}

// Writes field `index` of a view, in page order, to `field`; zeros if there is no such field.
#[unsafe(no_mangle)]
pub extern "C" fn pbeam_field(page: &[u8], view: &[u64; 15], index: usize, field: &mut [u64; 4])
    ensures field_after { field.new ≡ field_words (nth_place index (view_of view.now) page.now) }
    ensures page_value { field_as (nth_place index (view_of view.now) page.now) page.now
        ≡ nth_in index (fields_shown (reading_answer page.now (Ok (view_of view.now)))) }
{
    *field = images::field_words(field_lookup::field_of(page, images::view_of(view), index));
}

// Writes the view's first field with tag `tag` to `field`; zeros if there is no such field.
#[unsafe(no_mangle)]
pub extern "C" fn pbeam_field_of_tag(page: &[u8], view: &[u64; 15], tag: u8, field: &mut [u64; 4])
    ensures field_after { field.new ≡ field_words (tag_place tag (view_of view.now) page.now) }
    ensures page_value { field_as (tag_place tag (view_of view.now) page.now) page.now
        ≡ of_tag tag (fields_shown (reading_answer page.now (Ok (view_of view.now)))) }
{
    *field = images::field_words(field_lookup::field_of_tag(page, images::view_of(view), tag));
}

// The cursor of a view's first field, for `pbeam_field_next`.
#[unsafe(no_mangle)]
pub extern "C" fn pbeam_field_start(page: &[u8], view: &[u64; 15]) -> usize
    ensures value { result ≡ start_at (view_of view.now).plat page.now }
    ensures page_value { shown_from result page.now ≡ fields_shown (reading_answer page.now (Ok (view_of view.now))) }
{
    field_lookup::fields_start(page, images::view_of(view))
}

// Writes the field at `cursor` to `field` and returns the cursor of the next one.
#[unsafe(no_mangle)]
pub extern "C" fn pbeam_field_next(page: &[u8], cursor: usize, field: &mut [u64; 4]) -> usize
    ensures value { result ≡ (step_at cursor page.now).next }
    ensures field_after { field.new ≡ field_words (step_at cursor page.now).field }
    ensures page_value { (field_as (step_at cursor page.now).field page.now
        ≡ first_in (shown_from cursor page.now)) × (shown_from result page.now ≡ rest_in (shown_from cursor page.now)) }
{
    let step = field_lookup::field_next(page, cursor);
    let found = step.field;
    *field = images::field_words(found);
    step.next
}

// The number of bytes from the page's start that the manifest of a view takes, including its fields; at most 4,096. With this number of
// kept bytes at cold boot, a reader of the view's edition gets the same answer after any runtime commands.
#[unsafe(no_mangle)]
pub extern "C" fn pbeam_kept_for(page: &[u8], view: &[u64; 15]) -> u64
    ensures { (result ≡ kept_for (view_of view.now) page.now) × (result ≤ 4096) }
{
    images::kept_for(page, view)
}

// Writes the listing of the page at `base`, read as `edition`, to `text`, cut to the length of `text`. Returns the length of the whole
// listing.
#[unsafe(no_mangle)]
pub extern "C" fn pbeam_listing(page: &[u8], base: u64, edition: u64, text: &mut [u8]) -> usize
    ensures value { result ≡ length (listing_of (read_of edition base page.now)) }
    ensures text_after { text.new ≡ lay_clipped 0 (listing_of (read_of edition base page.now)) text.old }
{
    text::list(page, base, edition, text)
}

// Writes a manifest of `edition` for a page at `base`. Returns 0, or 1 to 5 for W1 to W5.
#[unsafe(no_mangle)]
pub extern "C" fn pbeam_write(
    base: u64,
    edition: u64,
    dram: &[u64],
    console: &[u64],
    ncoh: &[u64],
    coh: &[u64],
    fields: &[u8],
    page: &mut [u8],
) -> u32
    ensures value { result ≡ made_number (write_in base (length page.old) edition dram.now console.now ncoh.now coh.now fields.now) }
    ensures page_after { page.new ≡ page_after page.old
        (write_in base (length page.old) edition dram.now console.now ncoh.now coh.now fields.now) }
    ensures yes { Yes (description_fits (description_of dram.now console.now ncoh.now coh.now fields.now)) }
{
    images::wrote_number(writer::write(base, edition, dram, console, ncoh, coh, fields, page))
}

// ---- Versions ----

// Whether a version is accepted, for the boot interface and for the manifest (VN3).
#[unsafe(no_mangle)]
pub extern "C" fn pbeam_version_accepted(version: u64) -> bool
    ensures { result ≡ version_ok version }
{
    versions::is_accepted(version)
}

// The agreed interface minor for the offered version: min(5, minor) (VN4).
#[unsafe(no_mangle)]
pub extern "C" fn pbeam_agreed_minor(version: u64) -> u64
    ensures { result ≡ agreed version }
{
    versions::agreed_minor(version)
}

// Whether version a is later than version b.
#[unsafe(no_mangle)]
pub extern "C" fn pbeam_is_later(a: u64, b: u64) -> bool
    ensures { result ≡ later a b }
{
    versions::is_later(a, b)
}

// The archive's version, 0.4.0, as major * 65,536 + minor * 256 + patch. include/potterbeam.h refers to this name, so an object that was compiled with
// the header of another version does not link.
#[unsafe(no_mangle)]
pub extern "C" fn pbeam_version_0_4_0() -> u64
    ensures { result ≡ 1024 }
{
    1024
}

// ---- Boot ----

// Cold boot with x0 to x3 (BT2, BT3), on a monitor of at most `maxcpus` CPUs. `page` is the page at physical address x3, and its
// first `kept` bytes are kept. Returns 0 or the code.
#[unsafe(no_mangle)]
pub extern "C" fn pbeam_cold_boot(
    image: &mut [u64; 5],
    x0: u64,
    x1: u64,
    x2: u64,
    x3: u64,
    maxcpus: u64,
    kept: u64,
    page: &[u8],
) -> i32
    ensures value { result ≡ cold_code (record_of image.old) x0 x1 x2 x3 maxcpus kept page.now }
    ensures image_after { image.new ≡ record_words (cold_next (record_of image.old) x0 x1 x2 x3 maxcpus kept page.now) }
{
    let booted = images::record_of(image).cold(x0, x1, x2, x3, maxcpus, kept, page);
    let next = booted.next;
    *image = images::record_words(next);
    let code = booted.code;
    boot::number(code)
}

// Warm boot with x0 to x3; only x0 is used. Returns 0 or the code.
#[unsafe(no_mangle)]
pub extern "C" fn pbeam_warm_boot(image: &mut [u64; 5], x0: u64, x1: u64, x2: u64, x3: u64) -> i32
    ensures value { result ≡ warm_code (record_of image.old) x0 }
    ensures image_after { image.new ≡ record_words (warm_next (record_of image.old) x0) }
{
    let booted = images::record_of(image).warm(x0, x1, x2, x3);
    let next = booted.next;
    *image = images::record_words(next);
    let code = booted.code;
    boot::number(code)
}

// Closes the record permanently, from any state. EL3 calls it when the monitor reports that its boot failed.
#[unsafe(no_mangle)]
pub extern "C" fn pbeam_close(image: &mut [u64; 5])
    ensures { image.new ≡ record_words Closed }
{
    *image = images::record_words(Record::Closed);
}

// ---- Granule record ----

// Sets up the granule record from `banks`, the bytes that the array lookup finds in a page, for a table of `len` granules. Returns x0 of OK
// or INVAL; after INVAL the record is unchanged.
#[unsafe(no_mangle)]
pub extern "C" fn pbeam_set_up_granules(granules: &mut [u64; 33], banks: &[u8], len: u64) -> u64
    ensures { ◌≡◌ {A = SetUpLeft} (record { x0 = result; granules = granules.new })
        (set_up_in granules.old banks.now len) }
{
    codes::x0(banks::set_up(banks, len, granules))
}

// ---- Runtime commands ----

// 0xC40001B0 (CM2): changes the granule at `address` to Realm.
#[unsafe(no_mangle)]
pub extern "C" fn pbeam_delegate(
    state: &[u64; 5],
    granules: &[u64; 33],
    table: &mut [u8],
    words: &mut [u64],
    address: u64,
    out: &mut [u64; 3],
)
    ensures { ◌≡◌ {A = MoveLeft} (record { out = out.new; table = table.new; words = words.new })
        (move_in Direction.Delegate state.now granules.now table.old words.old address) }
{
    *out = images::registers(granules::delegate(
        images::record_of(state),
        granules,
        table,
        words,
        address,
    ));
}

// 0xC40001B1 (CM3): changes the granule at `address` to Non-secure.
#[unsafe(no_mangle)]
pub extern "C" fn pbeam_undelegate(
    state: &[u64; 5],
    granules: &[u64; 33],
    table: &mut [u8],
    words: &mut [u64],
    address: u64,
    out: &mut [u64; 3],
)
    ensures { ◌≡◌ {A = MoveLeft} (record { out = out.new; table = table.new; words = words.new })
        (move_in Direction.Undelegate state.now granules.now table.old words.old address) }
{
    *out = images::registers(granules::undelegate(
        images::record_of(state),
        granules,
        table,
        words,
        address,
    ));
}

// Changes the granules at `addresses` to Realm, one after another, up to the first that is refused; x1 is the number changed.
#[unsafe(no_mangle)]
pub extern "C" fn pbeam_delegate_list(
    state: &[u64; 5],
    granules: &[u64; 33],
    table: &mut [u8],
    words: &mut [u64],
    addresses: &[u64],
    out: &mut [u64; 3],
)
    ensures { ◌≡◌ {A = MoveLeft} (record { out = out.new; table = table.new; words = words.new })
        (move_list_in Direction.Delegate state.now granules.now table.old words.old addresses.now) }
{
    *out = images::registers(granules::delegate_list(
        images::record_of(state),
        granules,
        table,
        words,
        addresses,
    ));
}

// Changes the granules at `addresses` to Non-secure, one after another, up to the first that is refused; x1 is the number changed.
#[unsafe(no_mangle)]
pub extern "C" fn pbeam_undelegate_list(
    state: &[u64; 5],
    granules: &[u64; 33],
    table: &mut [u8],
    words: &mut [u64],
    addresses: &[u64],
    out: &mut [u64; 3],
)
    ensures { ◌≡◌ {A = MoveLeft} (record { out = out.new; table = table.new; words = words.new })
        (move_list_in Direction.Undelegate state.now granules.now table.old words.old addresses.now) }
{
    *out = images::registers(granules::undelegate_list(
        images::record_of(state),
        granules,
        table,
        words,
        addresses,
    ));
}

// 0xC40001B2 (CM4): writes the realm key to the page at `pa`.
#[unsafe(no_mangle)]
pub extern "C" fn pbeam_realm_key(
    state: &[u64; 5],
    page: &mut [u8],
    key: &[u8],
    pa: u64,
    size: u64,
    curve: u64,
    out: &mut [u64; 3],
)
    ensures out_after { out.new ≡ register_words (realm_key_of (record_of state.now) page.old key.now pa size curve).answer }
    ensures page_after { page.new ≡ (realm_key_of (record_of state.now) page.old key.now pa size curve).page }
{
    *out = images::registers(attest::realm_key(
        images::record_of(state),
        page,
        key,
        pa,
        size,
        curve,
    ));
}

// 0xC40001B3 (CM5): writes the next hunk of the token to the page at `pa`. The session's image changes only if the call is accepted.
#[unsafe(no_mangle)]
pub extern "C" fn pbeam_platform_token(
    state: &[u64; 5],
    session: &mut [u64; 3],
    page: &mut [u8],
    token: &[u8],
    busy: u64,
    pa: u64,
    size: u64,
    csize: u64,
    out: &mut [u64; 3],
)
    ensures { ◌≡◌ {A = TokenLeft} (record { out = out.new; page = page.new; session = session.new })
        (token_in state.now session.old page.old token.now busy pa size csize) }
{
    // With `&token[..]` in place of `token` the compiler passes pointer and length of the token in registers. Saves about 2 ns.
    let done = token::platform_token(
        images::record_of(state),
        page,
        images::session_of(session),
        images::is_set(busy),
        &token[..],
        pa,
        size,
        csize,
    );
    let answer = done.answer;
    let next = done.session;
    let code = answer.code;
    images::put_session(session, next, code);
    *out = images::registers(answer);
}

// Writes offset and length of the challenge in the page to `place`. Returns x0 of OK, or of the first check that fails.
#[unsafe(no_mangle)]
pub extern "C" fn pbeam_challenge(
    state: &[u64; 5],
    page: &[u8],
    pa: u64,
    size: u64,
    csize: u64,
    place: &mut [u64; 2],
) -> u64
    ensures value { result ≡ x0_of (buffer_code (record_of state.now) (length page.now) false pa size csize) }
    ensures place_after { place.new ≡ span_words (challenge_span (record_of state.now) page.now pa size csize) }
{
    let record = images::record_of(state);
    *place = images::span_words(token::challenge_place(record, page, pa, size, csize));
    codes::x0(token::challenge_code(record, page, pa, size, csize))
}

// 0xC40001B4 (CM6): the feature register at `index`.
#[unsafe(no_mangle)]
pub extern "C" fn pbeam_features(state: &[u64; 5], index: u64, out: &mut [u64; 3])
    ensures { out.new ≡ register_words (features_of (record_of state.now) index) }
{
    *out = images::registers(features::features(images::record_of(state), index));
}

// 0xC40001B5 (CM7): push, pull or key, by `opcode`. An accepted push changes only the requests in the queue's image, an accepted pull only
// the responses.
#[unsafe(no_mangle)]
pub extern "C" fn pbeam_token_signing(
    state: &[u64; 5],
    queue: &mut [u64; 210],
    page: &mut [u8],
    key: &[u8],
    opcode: u64,
    pa: u64,
    size: u64,
    curve: u64,
    out: &mut [u64; 3],
)
    ensures { ◌≡◌ {A = SigningLeft} (record { out = out.new; page = page.new; queue = queue.new })
        (signing_in state.now queue.old page.old key.now opcode pa size curve) }
{
    // `&key[..]` for the same reason as in pbeam_platform_token.
    let record = images::record_of(state);
    let answer = signing::token_signing_image(
        record,
        page,
        queue,
        &key[..],
        opcode,
        pa,
        size,
        curve,
    );
    *out = images::registers(answer);
}

// 0xC40001B6 (CM8): writes what the platform must do to `work`.
#[unsafe(no_mangle)]
pub extern "C" fn pbeam_key_update(
    state: &[u64; 5],
    width: u64,
    mecid: u64,
    out: &mut [u64; 3],
    work: &mut [u64; 2],
)
    ensures out_after { out.new ≡ register_words (update_of (record_of state.now) width mecid).answer }
    ensures work_after { work.new ≡ work_words (update_of (record_of state.now) width mecid).work }
{
    let updated = features::key_update(images::record_of(state), width, mecid);
    let todo = updated.work;
    *work = images::work_words(todo);
    let answer = updated.answer;
    *out = images::registers(answer);
}

// 0xC400018F (CM1): returns the error code for the Non-secure world.
#[unsafe(no_mangle)]
pub extern "C" fn pbeam_forward(state: &[u64; 5], x1: u64) -> u64
    ensures { result ≡ forward_of (record_of state.now) x1 }
{
    features::forward(images::record_of(state), x1)
}

// ---- The signer ----

// The signer's step: turns the oldest request into the newest response, with the lent signature. If the step is accepted, requests and
// responses in the queue's image both change.
#[unsafe(no_mangle)]
pub extern "C" fn pbeam_sign(queue: &mut [u64; 210], signature: &[u8], out: &mut [u64; 3])
    ensures { ◌≡◌ {A = SignLeft} (record { out = out.new; queue = queue.new }) (sign_in queue.old signature.now) }
{
    *out = images::registers(responses::sign_image(queue, signature));
}

// Writes the oldest request to `request`, or zeros if no request waits. Returns the number of waiting requests.
#[unsafe(no_mangle)]
pub extern "C" fn pbeam_oldest(queue: &[u64; 210], request: &mut [u64; 10]) -> usize
    ensures value { result ≡ length (lists_in queue.now).requests }
    ensures request_after { request.new ≡ oldest_words (lists_in queue.now).requests }
{
    *request = queue_image::oldest_words(queue);
    queue_image::requests_waiting(queue)
}

// The number of responses that wait for a pull.
#[unsafe(no_mangle)]
pub extern "C" fn pbeam_responses(queue: &[u64; 210]) -> usize
    ensures { result ≡ length (lists_in queue.now).responses }
{
    queue_image::responses_waiting(queue)
}

// ---- The realm words ----

// Counts the Realm granules, using only the realm words. Returns x0 of OK or INVAL.
#[unsafe(no_mangle)]
pub extern "C" fn pbeam_realm_count(
    granules: &[u64; 33],
    words: &[u64],
    number: &mut [u64; 1],
) -> u64
    ensures value { result ≡ number_x0 (realm_count_of words.now (granule_count granules.now)) }
    ensures number_after { number.new ≡ number_words (realm_count_of words.now (granule_count granules.now)) }
{
    let n = banks::granule_count(granules);
    let counted = realm_words::count(words, n as usize);
    *number = images::number_words(counted);
    images::number_x0(counted)
}

// Finds the first Realm granule at or after `index`, using only the realm words. Returns x0 of OK or INVAL, or 1 for no such granule.
#[unsafe(no_mangle)]
pub extern "C" fn pbeam_realm_next(
    granules: &[u64; 33],
    words: &[u64],
    index: u64,
    found: &mut [u64; 1],
) -> u64
    ensures value { result ≡ hit_x0 (realm_next_of words.now (granule_count granules.now) index) }
    ensures found_after { found.new ≡ hit_words (realm_next_of words.now (granule_count granules.now) index) }
{
    let n = banks::granule_count(granules);
    let hit = realm_next::next(words, n as usize, index as usize);
    *found = images::hit_words(hit);
    images::hit_x0(hit)
}

// Whether realm words and table agree, including the spare bits. Returns x0 of OK or INVAL, or 1 if they differ.
#[unsafe(no_mangle)]
pub extern "C" fn pbeam_realm_agrees(granules: &[u64; 33], table: &[u8], words: &[u64]) -> u64
    ensures { result ≡ agreement_x0 (realm_agree_of table.now words.now (granule_count granules.now)) }
{
    let n = banks::granule_count(granules);
    images::agreement_x0(realm_words::agrees(table, words, n as usize))
}

// Builds the realm words from the table. Returns x0 of OK or INVAL.
#[unsafe(no_mangle)]
pub extern "C" fn pbeam_realm_build(granules: &[u64; 33], table: &[u8], words: &mut [u64]) -> u64
    ensures { ◌≡◌ {A = BuildLeft} (record { x0 = result; words = words.new })
        (build_in granules.now table.now words.old) }
{
    let n = banks::granule_count(granules);
    images::built_x0(realm_words::build(table, words, n as usize))
}

// ---- Every command ----

// work[0] after 0xC400018F; work[1] is err_code for the Non-secure world.
const WORK_FORWARD: u64 = 2;

// Runs any runtime command: call[0] is the function id, call[1] to call[4] are x1 to x4. Only the platform token uses the session's image
// and only token signing the queue's image; an image changes only if the call is accepted.
#[unsafe(no_mangle)]
pub extern "C" fn pbeam_call(
    state: &[u64; 5],
    session: &mut [u64; 3],
    queue: &mut [u64; 210],
    page: &mut [u8],
    granules: &[u64; 33],
    table: &mut [u8],
    words: &mut [u64],
    key: &[u8],
    token: &[u8],
    busy: u64,
    public: &[u8],
    width: u64,
    call: &[u64; 5],
    out: &mut [u64; 3],
    work: &mut [u64; 2],
)
    ensures { ◌≡◌ {A = CallLeft} (record {
      out = out.new;
      work = work.new;
      page = page.new;
      table = table.new;
      words = words.new;
      session = session.new;
      queue = queue.new;
    })
        (call_in granules.now session.old queue.old page.old table.old words.old
        (call_lent state.now call.now busy key.now token.now public.now width)) }
{
    // Reads the arguments before the match. In the arms the compiler would load them in pairs, and a paired load waits for the caller's two
    // stores. Saves about 3 ns.
    let x1 = call[1];
    let x2 = call[2];
    let x3 = call[3];
    let x4 = call[4];
    *work = [0, 0];
    let kind = Kind::from(call[0]);
    match kind {
        Kind::ForwardError => {
            *out = [0, 0, 0];
            *work = [WORK_FORWARD, pbeam_forward(state, x1)];
        }
        Kind::Delegate => pbeam_delegate(state, granules, table, words, x1, out),
        Kind::Undelegate => pbeam_undelegate(state, granules, table, words, x1, out),
        Kind::RealmKey => pbeam_realm_key(state, page, key, x1, x2, x3, out),
        Kind::PlatformToken => {
            pbeam_platform_token(state, session, page, token, busy, x1, x2, x3, out)
        }
        Kind::Features => pbeam_features(state, x1, out),
        Kind::TokenSigning => {
            pbeam_token_signing(state, queue, page, public, x1, x2, x3, x4, out)
        }
        Kind::KeyUpdate => pbeam_key_update(state, width, x1, out, work),
        Kind::Unlisted => {
            *out = images::registers(codes::answer_with(Code::Unk, 0, 0));
        }
    }
}
