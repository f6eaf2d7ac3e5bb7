// 8. Newtypes.
ghost use Rattle.lines.specs.Reports.{Reports};
ghost use Rattle.clauses.specs.Pairs.{of_newtypes};

use crate::shared::compare_types;
use details::{Scope, Subject};
use lines::Report;
use members::kinds::Newtype;

// Two newtypes: their types.
pub fn compare_newtypes(r: &mut Report<'_>, old: Newtype<'_>, new: Newtype<'_>)
    ensures { Reports r.old (of_newtypes r.old.reading old.entry.decl new.entry.decl) r.new }
{
    let was = old.decl;
    let name = was.name();
    let subject = Subject::Newtype(name);
    compare_types(
        r,
        Scope::Decl(name),
        None,
        subject,
        old.inner(),
        new.inner(),
    );
}
