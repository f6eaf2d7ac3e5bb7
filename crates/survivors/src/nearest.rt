// Whether a declaration takes the place of the best one so far, on the way to the one that comes next, by their names.
ghost use Rattle.std.specs.Prelude.{◌≡◌};
ghost use Rattle.maps.specs.Orders.{before};
ghost use Rattle.maps.specs.Walk.{past};
ghost use Rattle.survivors.specs.Answers.{named, name_at, name_with, nearer_name};

use parts::handles::Decl;

// The name of a declaration, if there is one.
pub(crate) fn name_of<'a>(found: Option<Decl<'a>>) -> Option<&'a [u8]>
    ensures { name_at result ≡ named found.entry }
{
    let decl = found?;
    Some(decl.name())
}

// Whether one name stands before another.
#[tactic(auto, using(crate::proofs::Laws::Nearest::names_before))]
fn is_before(a: &[u8], b: &[u8]) -> bool
    ensures { result ≡ before a.now b.now }
{
    a < b
}

// Whether a name is past a bound: every name is past none.
#[tactic(auto, unfolding(maps::specs::Walk::past))]
fn is_past(after: Option<&[u8]>, name: &[u8]) -> bool
    ensures { result ≡ past before (name_at after.entry) name.now }
{
    let Some(bound) = after else {
        return true;
    };
    is_before(bound, name)
}

// Whether a name takes the place of the best one so far: it is past `after`, and the best one is not before it. The best one is looked at
// first: where names are listed as they rise, that alone decides of all that follow it.
pub(crate) fn is_nearer(after: Option<&[u8]>, best: Option<(&[u8], Decl<'_>)>, name: &[u8]) -> bool
    ensures { result ≡ nearer_name (name_at after.entry) (name_with best.entry) name.now }
{
    let Some((least, _)) = best else {
        return is_past(after, name);
    };
    if is_before(least, name) {
        return false;
    }
    is_past(after, name)
}
