// Board facts in the platform data (FD1 to FD8): fields of a tag, a two-byte length and a value, up to an end mark, checked and read in
// the slice.
#![tactic(auto)]

ghost use Rattle.std.specs.Prelude.{◌≡◌, ◌+◌, ◌<◌, ◌≤◌, length, drop};
ghost use Rattle.words.specs.Word.{num_at};
ghost use Rattle.fields.specs.Fields.{length_ok, scan_of, describable, fields_in};
ghost use Rattle.fields.specs.Steps.{head_at, field_place_of, is_seen, seen_with, none_seen, allowed, stop_of, end_told, step_at};

// Bytes of a field before its value: the tag and the two bytes of the length. The end mark has no more than these.
pub const FIELD_HEAD: usize = 3;

// The tags with a meaning: end mark, board name, serial, and the withdrawn choice of a console.
pub const TAG_END: u8 = 0;

pub const TAG_NAME: u8 = 1;

pub const TAG_SERIAL: u8 = 2;

pub const TAG_CONSOLE: u8 = 3;

// Lengths of the values, in bytes.
const NAME_LEAST: usize = 1;

const NAME_MOST: usize = 32;

const SERIAL_BYTES: usize = 8;

const CHOICE_BYTES: usize = 1;

// What is at an offset: the end mark; or a field, with the offset and length of its value and the offset after it. Private, because no
// function may give out the offset of a value with tag 3 (FD9).
#[derive(Clone, Copy)]
enum Head {
    End,
    Field {
        tag: u8,
        value: usize,
        len: usize,
        next: usize,
    },
}

// A field as callers see it: its tag with the offset and length of its value; or the withdrawn field, tag 3, without its value.
#[derive(Clone, Copy)]
pub enum FieldPlace {
    Raw { tag: u8, at: usize, len: usize },
    Withdrawn,
}

// One step of a walk over the fields: the field at an offset, if there is one, and the offset after it. No Option of the whole: `step_at`
// promises `next` also where there is no field, and `pbeam_field_next` returns it.
#[derive(Clone, Copy)]
pub struct FieldStep {
    pub field: Option<FieldPlace>,
    pub next: usize,
}

// Where a pass over good fields stops: after an end mark, at `end`, with `passed` fields before it; or at the slice's end without a mark,
// and then `console` is whether it passed a tag 3.
#[derive(Clone, Copy)]
enum Stop {
    Mark { end: usize, passed: usize },
    Edge { console: bool },
}

// Which of the tags 1 to 3 a pass has met so far.
#[derive(Clone, Copy)]
pub struct Seen {
    pub name: bool,
    pub serial: bool,
    pub console: bool,
}

impl Seen {
    // No tag met so far.
    pub fn none() -> Seen
        ensures { result ≡ none_seen }
    {
        Seen {
            name: false,
            serial: false,
            console: false,
        }
    }

    // Whether `tag` is one of 1 to 3 and met before.
    pub fn has(self, tag: u8) -> bool
        ensures { result ≡ is_seen self tag }
    {
        match tag {
            TAG_NAME => self.name,
            TAG_SERIAL => self.serial,
            TAG_CONSOLE => self.console,
            _ => false,
        }
    }

    // These tags, with `tag` added. Tags other than 1 to 3 are not recorded.
    pub fn with(self, tag: u8) -> Seen
        ensures { result ≡ seen_with self tag }
    {
        match tag {
            TAG_NAME => Seen { name: true, ..self },
            TAG_SERIAL => Seen {
                serial: true,
                ..self
            },
            TAG_CONSOLE => Seen {
                console: true,
                ..self
            },
            _ => self,
        }
    }

    // Whether a field may follow the fields with these tags: its length is allowed and tags 1 to 3 do not repeat.
    fn allows(self, tag: u8, len: usize) -> bool
        ensures { result ≡ allowed self tag len }
    {
        length_ok(tag, len) && !self.has(tag)
    }
}

// What is at `at`; `None` if the bytes are broken: cut short, or tag 0 with a length. Checks neither the lengths of tags 1 to 3 nor whether
// they repeat.
fn field_at(part: &[u8], at: usize) -> Option<Head>
    ensures { result ≡ head_at at part.now }
{
    if part.len() < at {
        return None;
    }
    if part.len() - at < FIELD_HEAD {
        return None;
    }
    let tag = part[at];
    let len = words::u16_at(part, at + 1) as usize;
    let value = at + FIELD_HEAD;
    if part.len() - value < len {
        return None;
    }
    let next = value + len;
    if tag != TAG_END {
        return Some(Head::Field {
            tag,
            value,
            len,
            next,
        });
    }
    if len != 0 {
        return None;
    }
    Some(Head::End)
}

// A field as callers see it.
fn place_of(tag: u8, at: usize, len: usize) -> FieldPlace
    ensures { result ≡ field_place_of tag at len }
{
    if tag == TAG_CONSOLE {
        return FieldPlace::Withdrawn;
    }
    FieldPlace::Raw { tag, at, len }
}

// The field at `at` and the offset after it. If there is no field, `next` is the slice's length.
pub fn step_at(part: &[u8], at: usize) -> FieldStep
    ensures { result ≡ step_at at part.now }
{
    let none = FieldStep {
        field: None,
        next: part.len(),
    };
    match field_at(part, at) {
        Some(
            Head::Field {
                tag,
                value,
                len,
                next,
            },
        ) => FieldStep {
            field: Some(place_of(tag, value, len)),
            next,
        },
        Some(Head::End) => none,
        None => none,
    }
}

// Whether a field with this tag may have a value of `len` bytes (FD2).
pub fn length_ok(tag: u8, len: usize) -> bool
    ensures { result ≡ length_ok tag len }
{
    match tag {
        TAG_END => false,
        TAG_NAME => NAME_LEAST <= len && len <= NAME_MOST,
        TAG_SERIAL => len == SERIAL_BYTES,
        TAG_CONSOLE => len == CHOICE_BYTES,
        _ => len < 0x1_0000,
    }
}

// One pass over the fields, from the slice's start; `None` if they break a rule.
fn walk(part: &[u8]) -> Option<Stop>
    ensures { result ≡ stop_of (scan_of part.now) }
{
    let mut at = 0;
    let mut passed = 0;
    let mut seen = Seen::none();
    while at < part.len() {
        match field_at(part, at)? {
            Head::End => {
                let end = at + FIELD_HEAD;
                return Some(Stop::Mark { end, passed });
            }
            Head::Field {
                tag,
                value: _,
                len,
                next,
            } => {
                if !seen.allows(tag, len) {
                    return None;
                }
                seen = seen.with(tag);
                passed += 1;
                at = next;
            }
        }
    }
    Some(Stop::Edge {
        console: seen.console,
    })
}

// Checks the fields from the slice's start through their end mark: the number of bytes through the mark, or `None` if they are broken.
// Reads nothing after the mark (FD7).
pub fn scan(part: &[u8]) -> Option<usize>
    ensures { result ≡ end_told (scan_of part.now) }
{
    match walk(part)? {
        Stop::Mark { end, passed: _ } => Some(end),
        Stop::Edge { console: _ } => None,
    }
}

// The same from offset `at` on. `None` if `at` is past the slice's end.
pub fn scan_at(page: &[u8], at: usize) -> Option<usize>
    ensures { result ≡ end_told (scan_of (drop at page.now)) }
{
    scan(page.get(at..)?)
}

// Whether the writer takes a description: its fields keep the rules up to its last byte, and none has tag 0 or tag 3.
pub fn description_ok(description: &[u8]) -> bool
    ensures { result ≡ describable (scan_of description.now) }
{
    match walk(description) {
        Some(Stop::Edge { console }) => !console,
        Some(Stop::Mark { end: _, passed: _ }) => false,
        None => false,
    }
}

// The number of fields that a reader shows; 0 if they are broken.
pub fn count(part: &[u8]) -> usize
    ensures { result ≡ length (fields_in (scan_of part.now)) }
{
    match walk(part) {
        Some(Stop::Mark { end: _, passed }) => passed,
        Some(Stop::Edge { console: _ }) => 0,
        None => 0,
    }
}
