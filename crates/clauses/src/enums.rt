// 5. Enums. Renames and deprecation are silent.
ghost use Rattle.std.specs.Prelude.{◌≡◌};
ghost use Rattle.parts.specs.Handles.{decl_of};
ghost use Rattle.rules.specs.Clauses.{enum_bump, compare_non_exhaustive};
ghost use Rattle.tally.specs.Tallies.{bump_value};
ghost use Rattle.lines.specs.Reports.{Reports};
ghost use Rattle.clauses.specs.Pairs.{of_enums};

use details::{Scope, Subject, Value};
use items::pairs::Pair;
use items::unmatched::unmatched_items;
use items::{Owner, Side};
use lines::{Report, Site};
use members::kinds::Enum;
use parts::handles::Decl;
use tally::{Bump, ChangeKind};

// Whether an enum is open.
fn compare_openness(r: &mut Report<'_>, old: Decl<'_>, new: Decl<'_>)
    ensures { Reports r.old (compare_non_exhaustive (decl_of old.entry).name (decl_of old.entry).marks (decl_of new.entry).marks) r.new }
{
    let was = old.non_exhaustive();
    let is = new.non_exhaustive();
    if was == is {
        return;
    }
    r.emit(Site::changed(
        ChangeKind::NonExhaustiveChanged,
        Scope::Decl(old.name()),
        Subject::NonExhaustive,
        Value::NonExhaustive(was),
        Value::NonExhaustive(is),
    ));
}

// "`VariantAdded` Minor if the new enum is non-exhaustive, else Major."
#[tactic(auto, unfolding(rules::specs::Clauses::enum_bump))]
fn enum_bump(new: Decl<'_>) -> Bump
    ensures { bump_value result ≡ enum_bump (decl_of new.entry).marks }
{
    if new.non_exhaustive() {
        return Bump::MINOR;
    }
    Bump::MAJOR
}

// Two enums: openness, variants removed, variants added.
pub fn compare_enums(r: &mut Report<'_>, old: Enum<'_>, new: Enum<'_>)
    ensures { Reports r.old (of_enums r.old.reading old.entry.decl new.entry.decl) r.new }
{
    let was = old.decl;
    let is = new.decl;
    compare_openness(r, was, is);
    let pair = Pair::new(
        Owner::Enum(was.name(), enum_bump(is)),
        old.variants(),
        new.variants(),
    );
    unmatched_items(r, Side::Old, pair);
    unmatched_items(r, Side::New, pair);
}
