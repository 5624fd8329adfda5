// The sections of a boot image for a board, by the release that it was launched with and its kernel: what the finder of
// sections answers, where the rule of the two takes the image.
#![tactic(auto)]

ghost use Rattle.std.specs.Prelude.{◌≡◌, Some};
ghost use Rattle.rules.specs.Answer.{unless, number_of};
ghost use Rattle.rules.specs.First.{first};
ghost use Rattle.boot_rules.specs.Sections.{version_in, os_in};
ghost use Rattle.boot_rules.specs.Tests as boot;
ghost use Rattle.boot_launch_rules.specs.Tests.{outside, unwanted, launch_tests, answer, answer_of};

use boot_header::{os_in, version_in};
use boot_image::locate;
use boot_launch_rules::{LaunchRefusal, Rule};
use boot_launch_table::rule_of;
use boot_rules::Layout;

// Whether a rule does not take a version.
fn outside(rule: Rule, version: u32) -> bool
    ensures { result ≡ outside (Some rule) version }
{
    (version < rule.lowest) | (rule.highest < version)
}

// Whether a rule wants an os version of 0, and this is another.
fn unwanted(rule: Rule, os: u32) -> bool
    ensures { result ≡ unwanted (Some rule) os }
{
    rule.zero & (os != 0)
}

// The first refusal by a rule of an image, or else what the finder of sections answers. Where there is no rule, the image is
// not looked at.
#[tactic(auto, unfolding(boot_launch_rules::specs::Tests::launch_tests))]
fn refusal(rule: Option<Rule>, image: &[u8]) -> Result<Layout, LaunchRefusal>
    ensures { answer_of result
        ≡ unless (first (launch_tests rule (number_of (boot.answer image.now)) (version_in image.now) (os_in image.now))) 0 (boot.answer image.now) }
{
    let rule = rule.ok_or(LaunchRefusal::NoRule)?;
    let layout = locate(image)?;
    if outside(rule, version_in(image)) {
        return Err(LaunchRefusal::Version);
    }
    if unwanted(rule, os_in(image)) {
        return Err(LaunchRefusal::OsVersion);
    }
    Ok(layout)
}

// Finds the sections of a boot image for a release and a kernel, 0 plain and 1 generic; any numbers and any bytes are
// taken.
#[tactic(auto, unfolding(boot_launch_rules::specs::Tests::answer))]
pub fn locate_for(release: u32, kernel: u32, image: &[u8]) -> Result<Layout, LaunchRefusal>
    ensures { answer_of result ≡ answer release kernel image.now }
{
    refusal(rule_of(release, kernel), image)
}
