// Features, key update and the forwarded error.
#![tactic(auto)]

ghost use Rattle.std.specs.Prelude.{◌≡◌, ltb, ◌+◌, ◌-◌, ◌^◌, ◌≤◌};
ghost use Rattle.codes.specs.Codes.{boot_params, when_up, gated};
ghost use Rattle.features.specs.Features.{features_code, features_of, update_code, update_of, forward_of};

use boot::Record;
use codes::{Answer, Code, Work};

// The agreed minors that features and key update need.
const SIGNING_MINOR: u64 = 4;

const KEY_UPDATE_MINOR: u64 = 5;

// The only feature register, and its value: bit 0, token signing is present.
const FEATURES_INDEX: u64 = 0;

const FEATURE_TOKEN_SIGNING: u64 = 1;

// The highest mecid and the highest MECIDWidthm1.
const MECID_MOST: u64 = 65535;

const WIDTH_MOST: u64 = 15;

// The result of a key update: the answer, and what the platform must do.
#[derive(Clone, Copy)]
pub struct UpdateResult {
    pub answer: Answer,
    pub work: Work,
}

// Runs the checks of features (CM6.2, CM6.3).
fn features_checks(state: Record, index: u64) -> Result<(), Code>
    ensures { result ≡ gated (when_up state (features_code (boot_params state) index)) tt }
{
    let params = codes::up_params(state)?;
    if index != FEATURES_INDEX {
        return Err(Code::Inval);
    }
    if params.minor < SIGNING_MINOR {
        return Err(Code::Unk);
    }
    Ok(())
}

// 0xC40001B4 (CM6): returns feature register `index` in x1. Register 0 is 1: token signing is present.
pub fn features(state: Record, index: u64) -> Answer
    ensures { result ≡ features_of state index }
{
    match features_checks(state, index) {
        Ok(()) => Answer::ok(FEATURE_TOKEN_SIGNING, 0),
        Err(code) => Answer::refused(code),
    }
}

// Whether `mecid` does not fit `bits` bits.
fn is_above(mecid: u64, bits: u64) -> bool
    requires { bits ≤ 16 }
    ensures { result ≡ ltb (2 ^ bits - 1) mecid }
{
    mecid >> bits != 0
}

// Runs the checks of a key update (CM8.2, CM8.3).
fn update_checks(state: Record, width: u64, mecid: u64) -> Result<(), Code>
    ensures { result ≡ gated (when_up state (update_code (boot_params state) width mecid)) tt }
{
    let params = codes::up_params(state)?;
    if MECID_MOST < mecid {
        return Err(Code::Inval);
    }
    if is_above(mecid, words::smaller(width, WIDTH_MOST) + 1) {
        return Err(Code::Inval);
    }
    if WIDTH_MOST < width {
        return Err(Code::Unk);
    }
    if params.minor < KEY_UPDATE_MINOR {
        return Err(Code::Unk);
    }
    Ok(())
}

// 0xC40001B6 (CM8): returns the mecid to reprogram; `width` is MECIDWidthm1.
pub fn key_update(state: Record, width: u64, mecid: u64) -> UpdateResult
    ensures { result ≡ update_of state width mecid }
{
    match update_checks(state, width, mecid) {
        Ok(()) => UpdateResult {
            answer: Answer::ok(0, 0),
            work: Work::Reprogram(mecid),
        },
        Err(code) => UpdateResult {
            answer: Answer::refused(code),
            work: Work::Nothing,
        },
    }
}

// 0xC400018F (CM1): returns the error code to forward to the Non-secure world, for any record. The command has no result.
pub fn forward(state: Record, x1: u64) -> u64
    ensures { result ≡ forward_of state x1 }
{
    x1
}
