// The calls from C, for all bytes, buffers and selectors: the verdict on two images, by one value or by all, its report, each also with
// imports and mended, and the contents of one image. Each is thin: what it answers is of `compat` or of `listing`.
#![tactic(auto)]

ghost use Rattle.std.specs.Prelude.{◌≡◌, length};
ghost use Rattle.rules.specs.Answer.{verdict_by, plain, verdict_of};
ghost use Rattle.rules.specs.Imports.{imports};
ghost use Rattle.rules.specs.Mended.{mended};
ghost use Rattle.verdicts.specs.Verdicts.{select_in};
ghost use Rattle.compat.specs.Policies.{policy_of};
ghost use Rattle.listing.specs.Listing.{listing_verdict, Wrote};
ghost use Rattle.vexil_compat.specs.Calls.{values_of, Valued, Reported};

use compat::policies::Policy;
use compat::{report, verdict};
use listing::{checked, write_listing};
use verdicts::Values;

// One value of the verdict, by its selector.
#[unsafe(no_mangle)]
pub extern "C" fn vexil_compat_verdict(old: &[u8], new: &[u8], selector: u64) -> u64
    ensures { result ≡ verdict_of old.now new.now selector }
{
    Values::of(verdict(Policy::PLAIN, old, new)).select(selector)
}

// The values of a verdict, from selector 0 on, one for each place of a buffer.
fn put_values(v: Values, values: &mut [u64])
    ensures { values.new ≡ values_of (select_in v) (length values.old) }
{
    for (i, value) in values.iter_mut().enumerate() {
        *value = v.select(i as u64);
    }
}

// The number; each place of the buffer holds the value of the verdict that has its index as selector, all of one comparison.
fn values_by(policy: Policy, old: &[u8], new: &[u8], values: &mut [u64]) -> u64
    ensures { Valued (verdict_by (policy_of policy) old.now new.now) values.old result values.new }
{
    let v = Values::of(verdict(policy, old, new));
    put_values(v, values);
    v.number as u64
}

// All values of the verdict; the number is returned.
#[unsafe(no_mangle)]
pub extern "C" fn vexil_compat_values(old: &[u8], new: &[u8], values: &mut [u64]) -> u64
    ensures { Valued (verdict_of old.now new.now) values.old result values.new }
{
    values_by(Policy::PLAIN, old, new, values)
}

// The report's length, 0 if refused; the report stands at the start of the buffer.
fn report_by(policy: Policy, old: &[u8], new: &[u8], out: &mut [u8]) -> u64
    ensures { Reported (policy_of policy) old.now new.now out.old result out.new }
{
    let v = Values::of(report(policy, old, new, out));
    v.length as u64
}

#[unsafe(no_mangle)]
pub extern "C" fn vexil_compat_report(old: &[u8], new: &[u8], out: &mut [u8]) -> u64
    ensures { Reported plain old.now new.now out.old result out.new }
{
    report_by(Policy::PLAIN, old, new, out)
}

// The same three with imports.
#[unsafe(no_mangle)]
pub extern "C" fn vexil_compat_imports_verdict(old: &[u8], new: &[u8], selector: u64) -> u64
    ensures { result ≡ verdict_by imports old.now new.now selector }
{
    Values::of(verdict(Policy::IMPORTS, old, new)).select(selector)
}

#[unsafe(no_mangle)]
pub extern "C" fn vexil_compat_imports_values(old: &[u8], new: &[u8], values: &mut [u64]) -> u64
    ensures { Valued (verdict_by imports old.now new.now) values.old result values.new }
{
    values_by(Policy::IMPORTS, old, new, values)
}

#[unsafe(no_mangle)]
pub extern "C" fn vexil_compat_imports_report(old: &[u8], new: &[u8], out: &mut [u8]) -> u64
    ensures { Reported imports old.now new.now out.old result out.new }
{
    report_by(Policy::IMPORTS, old, new, out)
}

// The same three mended.
#[unsafe(no_mangle)]
pub extern "C" fn vexil_compat_mended_verdict(old: &[u8], new: &[u8], selector: u64) -> u64
    ensures { result ≡ verdict_by mended old.now new.now selector }
{
    Values::of(verdict(Policy::MENDED, old, new)).select(selector)
}

#[unsafe(no_mangle)]
pub extern "C" fn vexil_compat_mended_values(old: &[u8], new: &[u8], values: &mut [u64]) -> u64
    ensures { Valued (verdict_by mended old.now new.now) values.old result values.new }
{
    values_by(Policy::MENDED, old, new, values)
}

#[unsafe(no_mangle)]
pub extern "C" fn vexil_compat_mended_report(old: &[u8], new: &[u8], out: &mut [u8]) -> u64
    ensures { Reported mended old.now new.now out.old result out.new }
{
    report_by(Policy::MENDED, old, new, out)
}

// The listing's length, 0 if refused; the listing stands at the start of the buffer.
#[unsafe(no_mangle)]
pub extern "C" fn vexil_compat_listing(image: &[u8], out: &mut [u8]) -> u64
    ensures { Wrote image.now out.old result out.new }
{
    write_listing(image, out) as u64
}

// One value of the listing's answer for a buffer of so many bytes, by its selector.
#[unsafe(no_mangle)]
pub extern "C" fn vexil_compat_listing_verdict(image: &[u8], out_len: u64, selector: u64) -> u64
    ensures { result ≡ listing_verdict image.now out_len selector }
{
    Values::of(checked(image, out_len as usize)).select(selector)
}
