// Reads the pages of the numbered cases of data/, in turn, up to the first number without a case. A case is 8 bytes of reader edition, 8 bytes
// of B and a page of any length. Prints the listing, the result of the array lookup for sections 0 to 4 and, if the page is accepted,
// the results of the field lookups and of console lookups for some names.
#![tactic(auto)]

use fields::FieldPlace;
use reader::View;
use vector_io::STDOUT;

fn print_array(page: &[u8], base: u64, edition: u64, k: usize) {
    let part = lookup::array(page, base, edition, k);
    io::write_all(STDOUT, b"array ");
    io::print_decimal(STDOUT, k as u64);
    io::write_all(STDOUT, b" ");
    io::print_decimal(STDOUT, part.len() as u64);
    vector_io::print_word(vector_io::mark(part));
    io::write_all(STDOUT, b"\n");
}

fn print_number(name: &[u8], n: u64) {
    io::write_all(STDOUT, name);
    io::write_all(STDOUT, b" ");
    io::print_decimal(STDOUT, n);
}

// Prints tag, length and mark of the field that a lookup found, or that it is withdrawn, or that no field was found.
fn print_field(page: &[u8], field: Option<FieldPlace>) {
    match field {
        Some(FieldPlace::Raw { tag, at: _, len }) => {
            print_number(b"", tag as u64);
            print_number(b"", len as u64);
            vector_io::print_word(vector_io::mark(field_lookup::value_of(page, field)));
            io::write_all(STDOUT, b"\n");
        }
        Some(FieldPlace::Withdrawn) => {
            io::write_all(STDOUT, b" withdrawn\n");
        }
        None => {
            io::write_all(STDOUT, b" none\n");
        }
    }
}

fn print_tag(page: &[u8], view: View, tag: u8) {
    print_number(b"tag", tag as u64);
    print_field(page, field_lookup::field_of_tag(page, view, tag));
}

fn print_index(page: &[u8], view: View, i: usize) {
    print_number(b"field", i as u64);
    print_field(page, field_lookup::field_of(page, view, i));
}

// Prints the number of fields, the first field of some tags, and some fields by index.
fn print_fields(page: &[u8], view: View) {
    let n = field_lookup::field_count(page, view);
    print_number(b"fields", n as u64);
    io::write_all(STDOUT, b"\n");
    for tag in [0, 1, 2, 3, 4, 255] {
        print_tag(page, view, tag);
    }
    for i in [0, n / 2, n] {
        print_index(page, view, i);
    }
}

// Prints the index of the first console with a name.
fn print_console(page: &[u8], view: View, text: &[u8], name: &[u8; 8]) {
    io::write_all(STDOUT, text);
    match lookup::find_console(page, view, name) {
        Some(i) => {
            print_number(b"", i as u64);
            io::write_all(STDOUT, b"\n");
        }
        None => {
            io::write_all(STDOUT, b" none\n");
        }
    }
}

fn print_consoles(page: &[u8], view: View) {
    print_console(page, view, b"console 706c303131000000", b"pl011\0\0\0");
    print_console(page, view, b"console 756172742d316162", b"uart-1ab");
    print_console(page, view, b"console 0000000000000000", b"\0\0\0\0\0\0\0\0");
}

fn print_case(edition: u64, base: u64, page: &[u8]) {
    let mut out = [0u8; 16384];
    let n = text::list(page, base, edition, &mut out);
    io::write_all(STDOUT, &out[..n]);
    // Counted: `k` is a section's number, as `lookup::array` takes it; no list is indexed.
    for k in 0..5usize {
        print_array(page, base, edition, k);
    }
    let Ok(view) = reader::read(page, base, edition) else {
        return;
    };
    print_fields(page, view);
    print_consoles(page, view);
}

fn print_input(input: &[u8]) {
    if input.len() < 16 {
        return;
    }
    print_case(
        words::word_at(input, 0),
        words::word_at(input, 8),
        &input[16..],
    );
}

// This program, as `vector_io::each_case` takes it.
struct Program;

impl vector_io::CaseProgram for Program {
    fn show(&self, case: &mut [u8]) {
        print_input(case);
    }
}

fn main(rt: HostRuntime) {
    let mut input = [0u8; 8209];
    vector_io::each_case(&rt, &mut input, &Program);
}
