// The rule table by launch release as a constant: one row a pair of release and kernel, in order of release, plain first.
#![tactic(auto)]

ghost use Rattle.std.specs.Prelude.{◌≡◌};
ghost use Rattle.boot_launch_rules.specs.Rules.{rule_of, RuleTable};

use boot_launch_rules::{GENERIC, Rule};

// Version 0 only.
const ONLY_0: Rule = Rule {
    lowest: 0,
    highest: 0,
    zero: false,
};

// Version 1 only.
const ONLY_1: Rule = Rule {
    lowest: 1,
    highest: 1,
    zero: false,
};

// Version 2 only.
const ONLY_2: Rule = Rule {
    lowest: 2,
    highest: 2,
    zero: false,
};

// Version 3 only.
const ONLY_3: Rule = Rule {
    lowest: 3,
    highest: 3,
    zero: false,
};

// Version 4 only.
const ONLY_4: Rule = Rule {
    lowest: 4,
    highest: 4,
    zero: false,
};

// Versions 3 and 4.
const THREE_AND_4: Rule = Rule {
    lowest: 3,
    highest: 4,
    zero: false,
};

// Version 4 only, with an os version of 0.
const ONLY_4_ZERO: Rule = Rule {
    lowest: 4,
    highest: 4,
    zero: true,
};

// The rules of all pairs; none for a bad request.
const RULES: [Option<Rule>; 12] = [
    Some(ONLY_0), // 8 plain
    None, // 8 generic
    Some(ONLY_1), // 9 plain
    None, // 9 generic
    Some(ONLY_2), // 10 plain
    None, // 10 generic
    Some(ONLY_3), // 11 plain
    Some(ONLY_3), // 11 generic
    Some(THREE_AND_4), // 12 plain
    Some(ONLY_4), // 12 generic
    Some(THREE_AND_4), // 13 plain
    Some(ONLY_4_ZERO), // 13 generic
];

// The table: its rows are what is said of all pairs.
fn rules() -> [Option<Rule>; 12]
    ensures { RuleTable result }
{
    RULES
}

// The rule of a release and a kernel, 0 plain and 1 generic; none, a bad request, for any other numbers.
pub fn rule_of(release: u32, kernel: u32) -> Option<Rule>
    ensures { result ≡ rule_of release kernel }
{
    if release < 8 {
        return None;
    }
    if 13 < release {
        return None;
    }
    if GENERIC < kernel {
        return None;
    }
    let table = rules();
    let at = (2 * (release - 8) + kernel) as usize;
    table[at]
}
