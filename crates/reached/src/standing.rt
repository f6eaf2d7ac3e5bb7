// The survivors: all that this crate asks of the searches among the declarations, over the listed ids alone.
ghost use Rattle.reached.specs.Marks.{OverSurvivors, StandsAt, Listed};

use parts::handles::{Decl, Image};
use survivors::decls::{Declarations, StandingDecls};

// The listed declarations.
fn listed(image: Image<'_>) -> Declarations<'_>
    ensures { Listed image.entry result }
{
    Declarations {
        image,
        reached: &[],
    }
}

// The survivors, by rising name.
pub(crate) fn survivors(image: Image<'_>) -> StandingDecls<'_>
    ensures { OverSurvivors image.entry result }
{
    listed(image).standing()
}

// Whether a declaration is the survivor of its name.
#[tactic(auto, using(crate::proofs::Declared::stands))]
pub(crate) fn is_survivor(decl: Decl<'_>) -> bool
    ensures { StandsAt decl.entry result }
{
    let Some(found) = listed(decl.image).survivor(decl.name()) else {
        return false;
    };
    found.at == decl.at
}
