// Widths of enums and flags: no clause compares them, and the mended reading reports them first.
ghost use Rattle.parts.specs.Handles.{decl_of};
ghost use Rattle.rules.specs.Widths.{compare_widths};
ghost use Rattle.lines.specs.Reports.{Reports};
ghost use Rattle.clauses.specs.Pairs.{of_first};

use details::{Scope, Subject, Value};
use lines::{Reading, Report, Site};
use parts::handles::Decl;
use tally::ChangeKind;

// Two widths: as they are stored, or one has none.
fn compare_stored(r: &mut Report<'_>, old: Decl<'_>, new: Decl<'_>)
    ensures { Reports r.old (compare_widths (decl_of old.entry) (decl_of new.entry)) r.new }
{
    let was = old.width();
    let is = new.width();
    if was == is {
        return;
    }
    r.emit(Site::changed(
        ChangeKind::WidthChanged,
        Scope::Decl(old.name()),
        Subject::Width,
        Value::Width(was),
        Value::Width(is),
    ));
}

// Two declarations of one kind, before their clause.
pub fn compare_widths(r: &mut Report<'_>, old: Decl<'_>, new: Decl<'_>)
    ensures { Reports r.old (of_first r.old.reading old.entry new.entry) r.new }
{
    match r.reading {
        Reading::Plain => {}
        Reading::Mended => compare_stored(r, old, new),
    }
}
