// 4. A message: its fields, then its own `FieldDeprecated`.
ghost use Rattle.lines.specs.Reports.{Reports};
ghost use Rattle.clauses.specs.Pairs.{of_messages};

use crate::fields::compare_field_sets;
use crate::shared::compare_deprecated;
use details::{Scope, Subject};
use lines::Report;
use members::kinds::Message;

// Two messages.
pub fn compare_messages(r: &mut Report<'_>, old: Message<'_>, new: Message<'_>)
    ensures { Reports r.old (of_messages r.old.reading old.entry.decl new.entry.decl) r.new }
{
    let was = old.decl;
    let is = new.decl;
    let scope = Scope::Decl(was.name());
    compare_field_sets(r, scope, old.fields(), new.fields());
    compare_deprecated(
        r,
        scope,
        None,
        Subject::Declaration,
        was.deprecated(),
        is.deprecated(),
    );
}
