// Converts states and answers to and from images, the arrays of 64-bit words that a C caller lends. Every image is accepted, including one
// that no function here returns.
#![tactic(auto)]

ghost use Rattle.std.specs.Prelude.{◌≡◌, ◌+◌, ◌≤◌, length};
ghost use Rattle.codes.specs.Codes.{if_ok};
ghost use Rattle.manifest_extent.specs.Kept.{kept_for};
ghost use Rattle.reader.specs.Reading.{section_of};
ghost use Rattle.images.specs.Image.{record_of, record_words, is_set, session_of, session_words, register_words, work_words, section_in, view_of, span_words, field_words, console_number, wrote_number};
ghost use Rattle.images.specs.Realm.{number_x0, number_words, hit_x0, hit_words, agreement_x0, built_x0};

use boot::{Params, Record};
use codes::{Answer, Code, Work};
use fields::FieldPlace;
use reader::{Section, View};
use realm_words::Inval;
use token::Session;
use words::Span;
use writer::WriteError;

// The boot record of an image: word 0 is 0 for fresh, 1 for up, any other number for closed.
pub fn record_of(image: &[u64; 5]) -> Record
    ensures { result ≡ record_of image.now }
{
    if image[0] == 0 {
        return Record::fresh();
    }
    if image[0] == 1 {
        return Record::Up(Params {
            cpus: image[1],
            base: image[2],
            minor: image[3],
            kept: image[4],
        });
    }
    Record::Closed
}

// The image of a boot record.
pub fn record_words(state: Record) -> [u64; 5]
    ensures { result ≡ record_words state }
{
    match state {
        Record::Fresh => [0, 0, 0, 0, 0],
        Record::Up(params) => [1, params.cpus, params.base, params.minor, params.kept],
        Record::Closed => [2, 0, 0, 0, 0],
    }
}

// The token session of an image: word 0 is 0 for idle, any other number for sending.
pub fn session_of(image: &[u64; 3]) -> Session
    ensures { result ≡ session_of image.now }
{
    if image[0] == 0 {
        return Session::idle();
    }
    Session::Sending {
        whole: image[1],
        sent: image[2],
    }
}

// The image of a token session.
pub fn session_words(session: Session) -> [u64; 3]
    ensures { result ≡ session_words session }
{
    match session {
        Session::Idle => [0, 0, 0],
        Session::Sending { whole, sent } => [1, whole, sent],
    }
}

// Writes `session` to the image if `code` is OK. Otherwise the image is unchanged, even if `session_words` never returns it.
pub fn put_session(image: &mut [u64; 3], session: Session, code: Code)
    ensures { image.new ≡ if_ok code (session_words session) image.old }
{
    if code == Code::Ok {
        *image = session_words(session);
    }
}

// Whether a flag is set: any number except 0 is (CE2).
pub fn is_set(flag: u64) -> bool
    ensures { result ≡ is_set flag }
{
    if flag == 0 {
        return false;
    }
    true
}

// x0, x1 and x2 of an answer.
pub fn registers(answer: Answer) -> [u64; 3]
    ensures { result ≡ register_words answer }
{
    [answer.x0, answer.x1, answer.x2]
}

// What the platform must do: [0, 0] for nothing, or 1 and the mecid to reprogram.
pub fn work_words(work: Work) -> [u64; 2]
    ensures { result ≡ work_words work }
{
    match work {
        Work::Nothing => [0, 0],
        Work::Reprogram(mecid) => [1, mecid],
    }
}

// The section whose three words start at word `at` of a view's image.
fn section_in(image: &[u64; 15], at: usize) -> Section
    requires { at ≤ 12 }
    ensures { result ≡ section_in at image.now }
{
    if image[at] == 0 {
        return Section::Absent;
    }
    if image[at] == 1 {
        return Section::Empty;
    }
    Section::Entries {
        at: image[at + 1] as usize,
        count: image[at + 2] as usize,
    }
}

// The view of an image: minor, edition, plat_data, then three words for each section.
pub fn view_of(image: &[u64; 15]) -> View
    ensures { result ≡ view_of image.now }
{
    View {
        minor: image[0],
        edition: image[1],
        plat: image[2],
        dram: section_in(image, 3),
        console: section_in(image, 6),
        ncoh: section_in(image, 9),
        coh: section_in(image, 12),
    }
}

// Section `k` of a view's image, `Absent` if `k` is above 3. Reads only the three words of that section.
pub fn section_of(image: &[u64; 15], k: usize) -> Section
    ensures { result ≡ section_of (view_of image.now) k }
{
    if 3 < k {
        return Section::Absent;
    }
    section_in(image, 3 + 3 * k)
}

// `manifest_extent::kept_for` for the view of an image. Takes the sections one at a time: building the whole view first takes a third
// longer.
pub fn kept_for(page: &[u8], image: &[u64; 15]) -> u64
    ensures { (result ≡ kept_for (view_of image.now) page.now) × (result ≤ 4096) }
{
    let mut end = manifest_extent::core_end(page, image[1], image[2]);
    end = manifest_extent::higher_end(end, section_in(image, 3), 0);
    end = manifest_extent::higher_end(end, section_in(image, 6), 1);
    end = manifest_extent::higher_end(end, section_in(image, 9), 2);
    end = manifest_extent::higher_end(end, section_in(image, 12), 3);
    8 * ((end + 7) / 8)
}

// The writer's answer as a number: 0 for a page, or 1 to 5 for W1 to W5.
pub fn wrote_number(wrote: Result<(), WriteError>) -> u32
    ensures { result ≡ wrote_number wrote }
{
    match wrote {
        Ok(()) => 0,
        Err(WriteError::Place) => 1,
        Err(WriteError::Edition) => 2,
        Err(WriteError::BadEntry) => 3,
        Err(WriteError::SectionAfterEdition) => 4,
        Err(WriteError::TooLong) => 5,
    }
}

// Offset and length of a part of the page.
pub fn span_words(span: Span) -> [u64; 2]
    ensures { result ≡ span_words span }
{
    [span.at as u64, span.len as u64]
}

// The result of a field lookup: 1, tag, offset and length of the value; 2 and tag 3 for the withdrawn field; zeros for no field.
pub fn field_words(field: Option<FieldPlace>) -> [u64; 4]
    ensures { result ≡ field_words field }
{
    match field {
        Some(FieldPlace::Raw { tag, at, len }) => {
            let number = tag as u64;
            [1, number, at as u64, len as u64]
        }
        Some(FieldPlace::Withdrawn) => [2, 3, 0, 0],
        None => [0u64; 4],
    }
}

// The index of the console that a lookup by name found, or 2^64 - 1 if there is no such console.
pub fn console_number(found: Option<usize>) -> usize
    ensures { result ≡ console_number found }
{
    found.unwrap_or(usize::MAX)
}

// x0 of a count of Realm granules: OK or INVAL.
#[tactic(auto, unfolding(crate::specs::Realm::number_x0))]
pub fn number_x0(number: Result<u64, Inval>) -> u64
    ensures { result ≡ number_x0 number }
{
    match number {
        Ok(_) => u64::from(Code::Ok),
        Err(Inval) => u64::from(Code::Inval),
    }
}

// The count of Realm granules, 0 if refused.
#[tactic(auto, unfolding(crate::specs::Realm::number_words))]
pub fn number_words(number: Result<u64, Inval>) -> [u64; 1]
    ensures { result ≡ number_words number }
{
    match number {
        Ok(n) => [n],
        Err(Inval) => [0],
    }
}

// x0 of a search for the next Realm granule: OK, INVAL, or 1 for no such granule.
#[tactic(auto, unfolding(crate::specs::Realm::hit_x0))]
pub fn hit_x0(hit: Result<Option<usize>, Inval>) -> u64
    ensures { result ≡ hit_x0 hit }
{
    match hit {
        Ok(Some(_)) => u64::from(Code::Ok),
        Ok(None) => 1,
        Err(Inval) => u64::from(Code::Inval),
    }
}

// The index of the granule found, 0 if no granule was found.
#[tactic(auto, unfolding(crate::specs::Realm::hit_words))]
pub fn hit_words(hit: Result<Option<usize>, Inval>) -> [u64; 1]
    ensures { result ≡ hit_words hit }
{
    match hit {
        Ok(Some(index)) => [index as u64],
        Ok(None) => [0],
        Err(Inval) => [0],
    }
}

// x0 of a comparison of realm words and table: OK if they agree, 1 if they differ, or INVAL.
#[tactic(auto, unfolding(crate::specs::Realm::agreement_x0))]
pub fn agreement_x0(agreement: Result<bool, Inval>) -> u64
    ensures { result ≡ agreement_x0 agreement }
{
    match agreement {
        Ok(true) => u64::from(Code::Ok),
        Ok(false) => 1,
        Err(Inval) => u64::from(Code::Inval),
    }
}

// x0 of building the realm words: OK or INVAL.
#[tactic(auto, unfolding(crate::specs::Realm::built_x0))]
pub fn built_x0(built: Result<(), Inval>) -> u64
    ensures { result ≡ built_x0 built }
{
    match built {
        Ok(()) => u64::from(Code::Ok),
        Err(Inval) => u64::from(Code::Inval),
    }
}
