// Cold and warm boot: each checks the boot registers, cold boot also checks the manifest, and both return the next boot record.
#![tactic(auto)]

ghost use Rattle.std.specs.Prelude.{◌≡◌, pos, MatchResult};
ghost use Rattle.boot.specs.Boot.{refused_number, boot_number, cold_code, params_of, cold_next, warm_code, warm_next};
ghost use Rattle.boot.specs.declared.BootRefusal.TheVariants.{Manifest};

use reader::Refusal;

// What a boot record keeps of its cold boot: x2 (`cpus`), the base B, the agreed interface minor, and K (`kept`). No runtime command writes
// the first K bytes of the page (BT1, KB3).
#[derive(Clone, Copy)]
pub struct Params {
    pub cpus: u64,
    pub base: u64,
    pub minor: u64,
    pub kept: u64,
}

// The boot record (BT1): no boot yet, up, or closed for good by a failed boot. No `Option`: these are three states that the interface names.
#[derive(Clone, Copy)]
pub enum Record {
    Fresh,
    Up(Params),
    Closed,
}

// The first check of a boot that fails.
#[derive(Clone, Copy, Debug, PartialEq, Eq)]
pub enum BootRefusal {
    State,
    Version,
    Cpus,
    Cpu,
    Manifest(Refusal),
}

impl From<Refusal> for BootRefusal {
    ghost from_gives = { λ code refusal. refusal ≡ Manifest code };

    fn from(code: Refusal) -> BootRefusal {
        BootRefusal::Manifest(code)
    }
}

// The number of a refusal, as C sees it: -1 to -4, or the manifest's code.
impl From<BootRefusal> for i32 {
    ghost from_gives = { λ refusal number. number ≡ refused_number refusal };

    fn from(refusal: BootRefusal) -> i32 {
        match refusal {
            BootRefusal::State => -1,
            BootRefusal::Version => -2,
            BootRefusal::Cpus => -3,
            BootRefusal::Cpu => -4,
            BootRefusal::Manifest(code) => i32::from(code),
        }
    }
}

// The result of a boot: the next record, and how the boot went.
#[derive(Clone, Copy)]
pub struct BootResult {
    pub next: Record,
    pub code: Result<(), BootRefusal>,
}

// The number of a boot's outcome: 0, or that of the refusal.
// A function and no `From`, since neither `Result` nor `i32` is a type of this crate.
pub fn number(code: Result<(), BootRefusal>) -> i32
    ensures { result ≡ boot_number code }
{
    match code {
        Ok(()) => 0,
        Err(refusal) => i32::from(refusal),
    }
}

// Ends a boot: with what its checks gave the record is up; if one failed it is closed for good (BT6).
fn ended(checked: Result<Params, BootRefusal>) -> BootResult
    ensures { MatchResult checked
        (λ params. (result.next ≡ Record.Up params) × (boot_number result.code ≡ pos 0))
        (λ refusal. (result.next ≡ Record.Closed) × (boot_number result.code ≡ refused_number refusal)) }
{
    match checked {
        Ok(up) => BootResult {
            next: Record::Up(up),
            code: Ok(()),
        },
        Err(refusal) => BootResult {
            next: Record::Closed,
            code: Err(refusal),
        },
    }
}

impl Record {
    // Returns the record before any boot.
    pub fn fresh() -> Self
        ensures { result ≡ Record.Fresh }
    {
        Record::Fresh
    }

    // The checks of a cold boot, in order, and what the record keeps if all pass.
    fn cold_checked(
        self,
        x0: u64,
        x1: u64,
        x2: u64,
        x3: u64,
        maxcpus: u64,
        kept: u64,
        page: &[u8],
    ) -> Result<Params, BootRefusal>
        ensures { MatchResult result
            (λ params. (cold_code self x0 x1 x2 x3 maxcpus kept page.now ≡ pos 0) × (params ≡ params_of x1 x2 x3 kept))
            (λ refusal. cold_code self x0 x1 x2 x3 maxcpus kept page.now ≡ refused_number refusal) }
    {
        let Record::Fresh = self else {
            return Err(BootRefusal::State);
        };
        if !versions::is_accepted(x1) {
            return Err(BootRefusal::Version);
        }
        if maxcpus < x2 {
            return Err(BootRefusal::Cpus);
        }
        if x2 <= x0 {
            return Err(BootRefusal::Cpu);
        }
        if words::PAGE_SIZE < kept {
            return Err(BootRefusal::Manifest(Refusal::Place));
        }
        // `let .. else` is the form that the project names here (docs/DECISIONS.md, "Forms").
        let Err(code) = reader::judge_page(page, x3, 4) else {
            return Ok(Params {
                cpus: x2,
                base: x3,
                minor: versions::agreed_minor(x1),
                kept,
            });
        };
        Err(BootRefusal::from(code))
    }

    // Cold boot with x0 to x3 (BT2, BT3). The monitor supports at most `maxcpus` CPUs, the first `kept` bytes of the page are kept,
    // and `page` is the page at x3, read as edition 4.
    pub fn cold(
        self,
        x0: u64,
        x1: u64,
        x2: u64,
        x3: u64,
        maxcpus: u64,
        kept: u64,
        page: &[u8],
    ) -> BootResult
        ensures { (boot_number result.code ≡ cold_code self x0 x1 x2 x3 maxcpus kept page.now) × (result.next ≡ cold_next self x0 x1 x2 x3 maxcpus kept page.now) }
    {
        ended(self.cold_checked(x0, x1, x2, x3, maxcpus, kept, page))
    }

    // The checks of a warm boot of CPU `x0`, in order, and what the record keeps if both pass.
    fn warm_checked(self, x0: u64) -> Result<Params, BootRefusal>
        ensures { MatchResult result
            (λ params. (warm_code self x0 ≡ pos 0) × (self ≡ Record.Up params))
            (λ refusal. warm_code self x0 ≡ refused_number refusal) }
    {
        let Record::Up(params) = self else {
            return Err(BootRefusal::State);
        };
        if params.cpus <= x0 {
            return Err(BootRefusal::Cpu);
        }
        Ok(params)
    }

    // Warm boot with x0 to x3 (BT4); only x0 counts (BT5).
    pub fn warm(self, x0: u64, x1: u64, x2: u64, x3: u64) -> BootResult
        ensures { (boot_number result.code ≡ warm_code self x0) × (result.next ≡ warm_next self x0) }
    {
        ended(self.warm_checked(x0))
    }
}
