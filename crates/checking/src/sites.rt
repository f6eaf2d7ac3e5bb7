// The changes of declarations: one that is gone, one that came, one of another kind.
ghost use Rattle.std.specs.Prelude.{◌≡◌, [], ◌∷◌};
ghost use Rattle.parts.specs.Handles.{decl_of};
ghost use Rattle.rules.specs.Clauses.{kind_changed};
ghost use Rattle.lines.specs.Sites.{change_of};
ghost use Rattle.items.specs.declared.Side.{Side};
ghost use Rattle.checking.specs.Decls.{lone_change, lone_of};

use details::{Detail, Scope, Subject, Value, Verb};
use items::Side;
use lines::Site;
use parts::handles::Decl;
use tally::{Bump, ChangeKind};

// 2. A declaration that only one image has, and what happened to it.
#[tactic(auto, unfolding(details::specs::Details::detail_text, rules::specs::Clauses::decl_text, image::specs::Words::bytes))]
fn change<'a>(kind: ChangeKind, bump: Bump, verb: Verb, decl: Decl<'a>) -> Site<'a>
    ensures { change_of result ≡ lone_change kind bump verb (decl_of decl.entry) }
{
    Site {
        kind,
        bump,
        scope: Scope::Decl(decl.name()),
        field: None,
        detail: Detail {
            subject: Subject::Decl(decl.kind(), decl.name()),
            verb,
            values: None,
        },
    }
}

// Only the old image has it.
fn decl_removed<'a>(decl: Decl<'a>) -> Site<'a>
    ensures { change_of result ≡ lone_of Side.Old (decl_of decl.entry) }
{
    change(
        ChangeKind::DeclarationRemoved,
        Bump::MAJOR,
        Verb::Removed,
        decl,
    )
}

// Only the new one.
fn decl_added<'a>(decl: Decl<'a>) -> Site<'a>
    ensures { change_of result ≡ lone_of Side.New (decl_of decl.entry) }
{
    change(ChangeKind::DeclarationAdded, Bump::MINOR, Verb::Added, decl)
}

// One that only a side has.
pub(crate) fn lone<'a>(side: Side, decl: Decl<'a>) -> Site<'a>
    ensures { change_of result ≡ lone_of side (decl_of decl.entry) }
{
    match side {
        Side::Old => decl_removed(decl),
        Side::New => decl_added(decl),
    }
}

// 3. A declaration of another kind.
pub(crate) fn kind_changed<'a>(old: Decl<'a>, new: Decl<'a>) -> Site<'a>
    ensures { change_of result ∷ [] ≡ kind_changed (decl_of old.entry) (decl_of new.entry) }
{
    let name = old.name();
    Site::changed(
        ChangeKind::DeclarationKindChanged,
        Scope::Decl(name),
        Subject::DeclName(name),
        Value::Kind(old.kind()),
        Value::Kind(new.kind()),
    )
}
