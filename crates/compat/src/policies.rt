// What is special to a verdict, and the stages that ask for it: its sets of ids, and the checks of the pair.
ghost use Rattle.std.specs.Prelude.{◌≡◌};
ghost use Rattle.rules.specs.Mended.{mixed};
ghost use Rattle.parts.specs.Handles.{schema_in};
ghost use Rattle.rules.specs.Answer.{first_fault};
ghost use Rattle.checking.specs.Decls.{both_aliases};
ghost use Rattle.compat.specs.Policies.{policy_of, HasIds, format_fault, fault_by, fault_of, fault_if, alias_fault};

use crate::prepared::Prepared;
use checking::aliases::alias_pair;
use lines::Reading;
use parts::formats::Format;
use parts::handles::Image;
use parts::refusals::Refusal;
use parts::sides::Side;
use reached::Reached;
use reached::follow::{nothing, reached};
use survivors::decls::Declarations;
use verdicts::Fault;

// What a verdict is made of: a row, in which each stage finds what it asks. A further verdict is a further row. None has a check of one image
// alone, after its 1 to 10.
#[derive(Clone, Copy)]
pub struct Policy {
    pub reading: Reading,
    // Whether what an image names and does not list is compared too.
    pub follows: bool,
    // Whether 16 is tested: that both images store the same of widths and tombstones.
    pub tests_formats: bool,
}

impl Policy {
    // The verdict of document 01.
    pub const PLAIN: Policy = Policy {
        reading: Reading::Plain,
        follows: false,
        tests_formats: false,
    };

    // With imports.
    pub const IMPORTS: Policy = Policy {
        reading: Reading::Plain,
        follows: true,
        tests_formats: false,
    };

    // The mended one.
    pub const MENDED: Policy = Policy {
        reading: Reading::Mended,
        follows: false,
        tests_formats: true,
    };
}

const ALIAS_PAIR: Fault = Fault {
    refusal: Refusal::AliasPair,
    side: Side::Both,
};

const MIXED: Fault = Fault {
    refusal: Refusal::Mixed,
    side: Side::Both,
};

// The ids of an image that may stand besides the listed ones.
pub fn ids_of(policy: Policy, image: Image<'_>) -> Reached
    ensures { HasIds policy image.entry result }
{
    if policy.follows {
        return reached(image);
    }
    nothing()
}

// A fault, where it is found.
#[tactic(auto, unfolding(crate::specs::Policies::fault_if, crate::specs::Policies::fault_of))]
fn refused_if(found: bool, fault: Fault) -> Result<(), Fault>
    ensures { fault_of result ≡ fault_if found (fault_by fault) }
{
    if found {
        return Err(fault);
    }
    Ok(())
}

// 11.
#[tactic(auto, unfolding(crate::specs::Policies::fault_if, crate::specs::Policies::alias_fault))]
fn judge_aliases(old: Declarations<'_>, new: Declarations<'_>) -> Result<(), Fault>
    ensures { fault_of result ≡ alias_fault (both_aliases old.entry new.entry) }
{
    refused_if(alias_pair(old, new), ALIAS_PAIR)
}

// Whether one of two images, or both, are of format 1, which stores no widths, or one of them alone is of format 3, which stores what is struck off.
#[tactic(auto, unfolding(rules::specs::Mended::mixed))]
fn is_mixed(old: Image<'_>, new: Image<'_>) -> bool
    ensures { result ≡ mixed (schema_in old.entry) (schema_in new.entry) }
{
    let was = old.format();
    let is = new.format();
    matches!(was, Format::One)
        || matches!(is, Format::One)
        || matches!(was, Format::Three) != matches!(is, Format::Three)
}

// 16, if it is tested.
fn judge_formats(policy: Policy, old: Image<'_>, new: Image<'_>) -> Result<(), Fault>
    ensures { fault_of result ≡ format_fault policy (schema_in old.entry) (schema_in new.entry) }
{
    if !policy.tests_formats {
        return Ok(());
    }
    refused_if(is_mixed(old, new), MIXED)
}

// The checks of the pair, in their order: 16, and then 11.
pub fn judge_pair(pair: Prepared<'_>) -> Result<(), Fault>
    ensures { fault_of result ≡ first_fault (policy_of pair.entry.policy).pair (schema_in pair.entry.old.image) (schema_in pair.entry.new.image) }
{
    let old = pair.old;
    let new = pair.new;
    judge_formats(pair.policy, old.image, new.image)?;
    judge_aliases(old, new)
}
