// Whether a new schema may be loaded where an old one runs: the verdict on two images and its report, for all bytes, by stages: accept
// the old image, accept the new one, judge the pair, measure the report, write it.
#![tactic(auto)]

pub mod policies;
pub mod prepared;

ghost use Rattle.std.specs.Prelude.{◌≡◌, ◌≤◌, length, take, Ok};
ghost use Rattle.parts.specs.Numbers.{side_number};
ghost use Rattle.rules.specs.Answer.{compared, outcome};
ghost use Rattle.verdicts.specs.Verdicts.{answer_values, outcome_values};
ghost use Rattle.compat.specs.Policies.{policy_of, pair_outcome, Accepts, AcceptsBoth};
ghost use Rattle.compat.specs.Pairs.{changes_of, outcome_of};
ghost use Rattle.compat.specs.Passes.{Passed, Written, Reported};

use crate::policies::{Policy, ids_of, judge_pair};
use crate::prepared::Prepared;
use checking::check;
use lines::Report;
use parts::handles::Image;
use parts::refusals::Refusal;
use parts::sides::Side;
use reached::Reached;
use survivors::decls::Declarations;
use verdicts::{Fault, Verdict};

const FULL: Fault = Fault {
    refusal: Refusal::Full,
    side: Side::Both,
};

// The image that bytes are: 1 to 10.
fn accept(bytes: &[u8], side: Side) -> Result<Image<'_>, Fault>
    ensures { Accepts (side_number side) bytes.now result }
{
    match Image::read(bytes) {
        Ok(image) => Ok(image),
        Err(refusal) => Err(Fault { refusal, side }),
    }
}

// The two images: "old before new".
fn accept_both<'a>(old: &'a [u8], new: &'a [u8]) -> Result<(Image<'a>, Image<'a>), Fault>
    ensures { AcceptsBoth old.now new.now result }
{
    let first = accept(old, Side::Old)?;
    let second = accept(new, Side::New)?;
    Ok((first, second))
}

// What may stand in an image, with its ids.
fn marked<'a>(image: Image<'a>, ids: &'a Reached) -> Declarations<'a>
    requires { (ids.now.count ≤ length ids.now.marks) × (ids.now.count ≤ 512) }
    ensures image { result.image ≡ image.entry }
    ensures reached { result.reached.now ≡ take ids.now.count ids.now.marks }
{
    Declarations {
        image,
        reached: &ids.marks[..ids.count],
    }
}

// One pass over two images: the lines of the changes, and the last.
fn pass(pair: Prepared<'_>, out: &mut [u8]) -> Verdict
    ensures { Passed out.old (changes_of pair.entry) result out.new }
{
    let mut r = Report::new(out, pair.policy.reading);
    check(&mut r, pair.old, pair.new);
    r.put_last_line();
    Verdict::of_tally(r.tally, r.length)
}

// The verdict of the changes. Nothing is written: the buffer is empty.
fn measure(pair: Prepared<'_>) -> Verdict
    ensures { answer_values (Ok result) ≡ outcome_values (compared (changes_of pair.entry)) }
{
    pass(pair, &mut [])
}

// The fault of the pair, or the verdict.
fn compare_with(pair: Prepared<'_>) -> Result<Verdict, Fault>
    ensures { answer_values result ≡ outcome_values (outcome_of pair.entry) }
{
    judge_pair(pair)?;
    Ok(measure(pair))
}

// Two images.
fn compare(policy: Policy, old: Image<'_>, new: Image<'_>) -> Result<Verdict, Fault>
    ensures { answer_values result ≡ outcome_values (pair_outcome policy old.entry new.entry) }
{
    let a = ids_of(policy, old);
    let b = ids_of(policy, new);
    compare_with(Prepared::new(policy, marked(old, &a), marked(new, &b)))
}

// The verdict on two images.
pub fn verdict(policy: Policy, old: &[u8], new: &[u8]) -> Result<Verdict, Fault>
    ensures { answer_values result ≡ outcome_values (outcome (policy_of policy) old.now new.now) }
{
    let (first, second) = accept_both(old, new)?;
    compare(policy, first, second)
}

// The verdict with its report in a buffer. 12 if the report is longer than the buffer.
fn write_with(pair: Prepared<'_>, out: &mut [u8]) -> Result<Verdict, Fault>
    ensures { Written (outcome_of pair.entry) out.old result out.new }
{
    judge_pair(pair)?;
    let v = measure(pair);
    if out.len() < v.length {
        return Err(FULL);
    }
    Ok(pass(pair, out))
}

// Two images.
fn write(policy: Policy, old: Image<'_>, new: Image<'_>, out: &mut [u8]) -> Result<Verdict, Fault>
    ensures { Written (pair_outcome policy old.entry new.entry) out.old result out.new }
{
    let a = ids_of(policy, old);
    let b = ids_of(policy, new);
    write_with(Prepared::new(policy, marked(old, &a), marked(new, &b)), out)
}

// The verdict with its report. A refusal leaves the buffer as it was.
pub fn report(policy: Policy, old: &[u8], new: &[u8], out: &mut [u8]) -> Result<Verdict, Fault>
    ensures { Reported policy old.now new.now out.old result out.new }
{
    let (first, second) = accept_both(old, new)?;
    write(policy, first, second, out)
}
