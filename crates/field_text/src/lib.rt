// The line of a platform field, written into a lent slice as far as it fits.
#![tactic(auto)]

ghost use Rattle.fields.specs.Fields.{raw};
ghost use Rattle.text_lines.specs.Text.{field_text};
ghost use Rattle.text_lines.specs.Steps.{place_text, Written};

use fields::FieldPlace;
use text_lines::Out;

// Writes a field with its value: tag, length and the bytes of the value.
fn put_raw(out: &mut Out, tag: u8, value: &[u8])
    ensures { Written (field_text (raw tag value.now)) out.old out.new }
{
    out.put_decimal(tag as u64);
    out.put(b" ");
    out.put_decimal(value.len() as u64);
    out.put_value(value);
    out.put_end();
}

// Writes the line of a field with its value; nothing if there is no field.
pub fn put_field(out: &mut Out, field: Option<FieldPlace>, value: &[u8])
    ensures { Written (place_text field value.now) out.old out.new }
{
    match field {
        Some(FieldPlace::Raw { tag, at: _, len: _ }) => put_raw(out, tag, value),
        Some(FieldPlace::Withdrawn) => out.put(b"3 withdrawn\n"),
        None => out.put(b""),
    }
}
