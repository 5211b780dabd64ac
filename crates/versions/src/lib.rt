// Versions as numbers (VN1 to VN4), and the editions of the manifest's layout (ML1, ML2).
#![tactic(auto)]

ghost use Rattle.std.specs.Prelude.{◌≡◌, ◌<◌, ◌≤◌};
ghost use Rattle.versions.specs.Version.{minor_of, major_of, version_ok, later, agreed};
ghost use Rattle.versions.specs.Edition.{section_count, core, edition_ok};

// A version's minor, bits 0 to 15.
pub fn minor(version: u64) -> u64
    ensures { (result ≡ minor_of version) × (result < 0x1_0000) }
{
    version % 0x1_0000
}

// A version's major, bits 16 to 30.
pub fn major(version: u64) -> u64
    ensures { (result ≡ major_of version) × (result < 0x8000) }
{
    version / 0x1_0000 % 0x8000
}

// Whether a version, of the boot interface or of a manifest, is accepted (VN3): bit 31 and all bits above are 0, the major is 0 and the
// minor is 1 or more.
pub fn is_accepted(version: u64) -> bool
    ensures { result ≡ version_ok version }
{
    version / 0x8000_0000 == 0 && major(version) == 0 && 1 <= minor(version)
}

// Whether `a` is later than `b` (VN2). Versions compare as numbers: 0.10 is later than 0.9.
pub fn is_later(a: u64, b: u64) -> bool
    ensures { result ≡ later a b }
{
    b < a
}

// The interface minor that both sides use if `version` is offered (VN4): min(5, minor).
pub fn agreed_minor(version: u64) -> u64
    ensures { (result ≡ agreed version) × (result ≤ 5) }
{
    minor(version).min(5)
}

// Whether `edition` is 1 to 4.
pub fn is_edition(edition: u64) -> bool
    ensures { result ≡ edition_ok edition }
{
    (1..=4).contains(&edition)
}

// An edition of the layout, given as a minor. A minor below 1 counts as 1 and one above 4 as 4, so every number is an edition.
#[derive(Clone, Copy)]
pub struct Edition {
    pub minor: u64,
}

impl Edition {
    // Core size of edition 1, in bytes.
    pub const CORE_1: u64 = 16;

    // Core size of edition 2, in bytes.
    pub const CORE_2: u64 = 40;

    // Core size of edition 3, in bytes.
    pub const CORE_3: u64 = 64;

    // Core size of edition 4, in bytes.
    pub const CORE_4: u64 = 112;

    // The core size of this edition, in bytes (ML2).
    pub fn core_size(self) -> u64
        ensures { (result ≡ core self.minor) × (result ≤ 112) }
    {
        match self.minor {
            0 | 1 => Edition::CORE_1,
            2 => Edition::CORE_2,
            3 => Edition::CORE_3,
            _ => Edition::CORE_4,
        }
    }

    // The number of sections of this edition, 0 to 4.
    pub fn sections(self) -> u8
        ensures { (result ≡ section_count self.minor) × (result ≤ 4) }
    {
        match self.minor {
            0 | 1 => 0,
            2 => 1,
            3 => 2,
            _ => 4,
        }
    }
}
