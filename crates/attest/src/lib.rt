// Attestation: the realm key command.
#![tactic(auto)]

ghost use Rattle.std.specs.Prelude.{◌≡◌, ◌+◌, ◌≤◌, length};
ghost use Rattle.attest.specs.Key.{Keyed, key_rest, keyed, realm_key_of};

use boot::Record;
use buffer_check::OutsideAs;
use codes::{Answer, Code};

// Writes the realm key into a buffer of `size` bytes at offset `at` of the page.
fn put_key(page: &mut [u8], key: &[u8], at: usize, size: u64, curve: u64) -> Answer
    requires { at + size ≤ length page.old }
    ensures { ◌≡◌ {A = Keyed} (record { answer = result; page = page.new }) (keyed (key_rest size curve key.now) at page.old key.now) }
{
    if curve != 0 {
        return Answer::refused(Code::Inval);
    }
    if key.len() == 0 {
        return Answer::refused(Code::Unk);
    }
    if size < (key.len() as u64) {
        return Answer::refused(Code::Unk);
    }
    words::copy(&mut page[at..], key);
    Answer::ok(key.len() as u64, 0)
}

// 0xC40001B2 (CM4): writes the realm key that the platform lends into the buffer of `size` bytes at `pa`; x1 is the key's length.
pub fn realm_key(
    state: Record,
    page: &mut [u8],
    key: &[u8],
    pa: u64,
    size: u64,
    curve: u64,
) -> Answer
    ensures { ◌≡◌ {A = Keyed} (record { answer = result; page = page.new }) (realm_key_of state page.old key.now pa size curve) }
{
    let checked = buffer_check::page_gate(
        state,
        page.len(),
        Code::Ok,
        OutsideAs::BadAddress,
        pa,
        size,
    );
    match checked {
        Ok(at) => put_key(page, key, at, size, curve),
        Err(code) => Answer::refused(code),
    }
}
