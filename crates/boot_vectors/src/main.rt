// Runs the boots of the numbered cases of data/, in turn, up to the first number without a case. A case is 8-byte words: the boot record
// (0 fresh, 1 up, 2 closed, then its four values) and the number of steps. A step is cold (0) or warm (1), x0 to x3, the monitor's
// maximum of CPUs, K, the page's length, and the page. Prints the code and the next record of each step.
#![tactic(auto)]

ghost use Rattle.std.specs.Prelude.{◌+◌, ◌≤◌};

use boot::{BootResult, Params, Record};
use vector_io::STDOUT;
use words::Span;

// The record after a step, and the offset of the next step.
#[derive(Clone, Copy)]
struct StepResult {
    next: Record,
    at: usize,
}

fn print_record(state: Record) {
    match state {
        Record::Fresh => {
            io::write_all(STDOUT, b" fresh\n");
        }
        Record::Up(params) => {
            io::write_all(STDOUT, b" up");
            vector_io::print_word(params.cpus);
            vector_io::print_word(params.base);
            vector_io::print_word(params.minor);
            vector_io::print_word(params.kept);
            io::write_all(STDOUT, b"\n");
        }
        Record::Closed => {
            io::write_all(STDOUT, b" closed\n");
        }
    }
}

fn print_code(code: i32) {
    io::write_all(STDOUT, b"code ");
    if code < 0 {
        io::write_all(STDOUT, b"-");
    }
    io::print_decimal(STDOUT, u64::from(code.unsigned_abs()));
}

// Boots with the registers of the step at offset `at` of the case.
fn boot_with(state: Record, input: &[u8], at: usize, page: &[u8]) -> BootResult
    requires { at ≤ 100000 }
{
    let x0 = words::word_at(input, at + 8);
    let x1 = words::word_at(input, at + 16);
    let x2 = words::word_at(input, at + 24);
    let x3 = words::word_at(input, at + 32);
    if words::word_at(input, at) == 0 {
        let maxcpus = words::word_at(input, at + 40);
        let kept = words::word_at(input, at + 48);
        return state.cold(x0, x1, x2, x3, maxcpus, kept, page);
    }
    state.warm(x0, x1, x2, x3)
}

fn step(state: Record, input: &[u8], at: usize) -> StepResult
    requires { at ≤ 100000 }
    ensures { result.at ≤ at + 4264 }
{
    let n = vector_io::length_at(input, at + 56, 4200);
    let page = words::part_of(
        input,
        Span {
            at: at + 64,
            len: n,
        },
    );
    let booted = boot_with(state, input, at, page);
    let next = booted.next;
    let code = booted.code;
    print_code(boot::number(code));
    print_record(next);
    StepResult {
        next,
        at: at + 64 + n,
    }
}

fn print_case(input: &[u8]) {
    let steps = vector_io::length_at(input, 40, 20);
    let mut state = vector_io::record_at(input);
    let mut at: usize = 48;
    // Counted: a step starts where the step before it ended, and there is no list of them.
    for i in 0..steps {
        let done = step(state, input, at);
        state = done.next;
        at = done.at;
    }
}

// This program, as `vector_io::each_case` takes it.
struct Program;

impl vector_io::CaseProgram for Program {
    fn show(&self, case: &mut [u8]) {
        print_case(case);
    }
}

fn main(rt: HostRuntime) {
    let mut input = [0u8; 32768];
    vector_io::each_case(&rt, &mut input, &Program);
}
