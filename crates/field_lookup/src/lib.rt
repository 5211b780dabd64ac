// Lookups in the fields of the platform data (FD10), given a view and its page: by number, by tag, and with a cursor that walks over them.
#![tactic(auto)]

ghost use Rattle.std.specs.Prelude.{◌≡◌, length};
ghost use Rattle.words.specs.Word.{span_start, on_from};
ghost use Rattle.fields.specs.Steps.{step_at};
ghost use Rattle.reader.specs.Answer.{fields_shown};
ghost use Rattle.reader.specs.Reading.{reading_answer};
ghost use Rattle.field_lookup.specs.Fields.{first_in, rest_in, nth_in, of_tag, value_in, field_as, place_span};
ghost use Rattle.field_lookup.specs.Steps.{shown_from, start_at, nth_place, tag_place, place_tag};

use fields::{FieldPlace, FieldStep};
use reader::View;
use words::Span;

// The cursor at the first field of a view. It is the page's length if the view has no pointer, or if a hand-written view points at broken
// fields.
pub fn fields_start(page: &[u8], view: View) -> usize
    ensures value { result ≡ start_at view.plat page.now }
    ensures page_value { shown_from result page.now ≡ fields_shown (reading_answer page.now (Ok view)) }
{
    let plat = view.plat;
    if plat == 0 {
        return page.len();
    }
    let at = (plat % words::PAGE_SIZE) as usize;
    match fields::scan_at(page, at) {
        Some(_) => at,
        None => page.len(),
    }
}

// The field at `cursor`, and the cursor after it. A walk from the first field passes all fields, in page order.
pub fn field_next(page: &[u8], cursor: usize) -> FieldStep
    ensures value { result ≡ step_at cursor page.now }
    ensures page_value { field_as result.field page.now ≡ first_in (shown_from cursor page.now) }
    ensures page_value_2 { shown_from result.next page.now ≡ rest_in (shown_from cursor page.now) }
{
    fields::step_at(page, cursor)
}

// The number of fields that a view shows.
pub fn field_count(page: &[u8], view: View) -> usize
    ensures { result ≡ length (fields_shown (reading_answer page.now (Ok view))) }
{
    let plat = view.plat;
    if plat == 0 {
        return 0;
    }
    let at = (plat % words::PAGE_SIZE) as usize;
    match page.get(at..) {
        Some(part) => fields::count(part),
        None => 0,
    }
}

// Field `i` of a view, in page order; `None` if there is no such field.
pub fn field_of(page: &[u8], view: View, i: usize) -> Option<FieldPlace>
    ensures value { result ≡ nth_place i view page.now }
    ensures page_value { field_as result page.now ≡ nth_in i (fields_shown (reading_answer page.now (Ok view))) }
{
    let mut cursor = fields_start(page, view);
    for _ in 0..i {
        let step = field_next(page, cursor);
        step.field?;
        cursor = step.next;
    }
    field_next(page, cursor).field
}

// The tag of a field.
fn tag_of(field: FieldPlace) -> u8
    ensures { result ≡ place_tag field }
{
    match field {
        FieldPlace::Raw { tag, at: _, len: _ } => tag,
        FieldPlace::Withdrawn => fields::TAG_CONSOLE,
    }
}

// The first field of a view with this tag: 1 is the board name, 2 the serial, 3 the withdrawn field.
pub fn field_of_tag(page: &[u8], view: View, tag: u8) -> Option<FieldPlace>
    ensures value { result ≡ tag_place tag view page.now }
    ensures page_value { field_as result page.now ≡ of_tag tag (fields_shown (reading_answer page.now (Ok view))) }
{
    let mut cursor = fields_start(page, view);
    loop {
        let step = field_next(page, cursor);
        let field = step.field?;
        if tag_of(field) == tag {
            return Some(field);
        }
        cursor = step.next;
    }
}

// The span of a field's value; empty if no value is shown.
fn span_of(field: Option<FieldPlace>) -> Span
    ensures { result ≡ place_span field }
{
    match field {
        Some(FieldPlace::Raw { tag: _, at, len }) => Span { at, len },
        Some(FieldPlace::Withdrawn) => Span { at: 0, len: 0 },
        None => Span { at: 0, len: 0 },
    }
}

// The value of a field, as a part of the page itself; empty if no value is shown. Takes the Option of a lookup, since it promises an answer
// for `None` too.
pub fn value_of(page: &[u8], field: Option<FieldPlace>) -> &[u8]
    ensures result_value { result.now ≡ value_in (field_as field page.now) }
    ensures ref_ptr_value { result.ref_ptr ≡ on_from page.entry.ref_ptr (span_start (place_span field) page.now) }
{
    words::part_of(page, span_of(field))
}
