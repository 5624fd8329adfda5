// Which boot images a board takes, by the release that it was launched with and its kernel, and the text that says so, as
// definitions and theorems, with the kernels, the type of a rule and the refusals. No code but the refusals' numbers, and
// how an image's own refusal is handed on.
#![tactic(auto)]

ghost use Rattle.std.specs.Prelude.{◌≡◌};
ghost use Rattle.boot_launch_rules.specs.declared.LaunchRefusal.TheVariants.{Image};
ghost use Rattle.boot_launch_rules.specs.Tests.{refusal_number};

use boot_rules::Refusal;

// The kernels, as numbers.
pub const PLAIN: u32 = 0;

pub const GENERIC: u32 = 1;

// What a release takes with a kernel: header versions from the lowest to the highest, and an os version of 0 where `zero`
// is set.
#[derive(Clone, Copy)]
pub struct Rule {
    pub lowest: u32,
    pub highest: u32,
    pub zero: bool,
}

// Why an image is not taken: no rule for the release and the kernel, the image's own refusal, a version that the rule does
// not take, or an os version that it does not want.
#[derive(Clone, Copy, Debug, PartialEq, Eq)]
pub enum LaunchRefusal {
    NoRule,
    Image(Refusal),
    Version,
    OsVersion,
}

impl From<Refusal> for LaunchRefusal {
    ghost from_gives = { λ own refusal. refusal ≡ Image own };

    fn from(own: Refusal) -> LaunchRefusal {
        LaunchRefusal::Image(own)
    }
}

impl LaunchRefusal {
    // The number of a refusal.
    pub fn number(self) -> u32
        ensures { result ≡ refusal_number self }
    {
        match self {
            LaunchRefusal::NoRule => 41,
            LaunchRefusal::Image(own) => own.number(),
            LaunchRefusal::Version => 42,
            LaunchRefusal::OsVersion => 43,
        }
    }
}
