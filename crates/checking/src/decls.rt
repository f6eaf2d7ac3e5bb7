// 2. and 3. Declarations, by rising name: removed, added, kept.
ghost use Rattle.std.specs.Prelude.{◌≡◌};
ghost use Rattle.parts.specs.Handles.{decl_of};
ghost use Rattle.lines.specs.Reports.{Reports};
ghost use Rattle.checking.specs.Decls.{of_kind, of_decls, unmatched_decls, unmatched_decl, kept_decls, kept_decl};

use crate::sites::{kind_changed, lone};
use clauses::enums::compare_enums;
use clauses::flags::compare_flags;
use clauses::messages::compare_messages;
use clauses::newtypes::compare_newtypes;
use clauses::tombstones::compare_last;
use clauses::unions::compare_unions;
use clauses::widths::compare_widths;
use items::Side;
use lines::Report;
use members::kinds::{Enum, Flags, Message, Newtype, Union};
use parts::handles::Decl;
use parts::kinds::Kind;
use survivors::decls::Declarations;

// Two declarations of one kind.
fn compare_kind(r: &mut Report<'_>, old: Decl<'_>, new: Decl<'_>)
    requires { (decl_of new).kind ≡ (decl_of old).kind }
    ensures { Reports r.old (of_kind r.old.reading old.entry new.entry) r.new }
{
    match old.kind() {
        Kind::Message => compare_messages(r, Message { decl: old }, Message { decl: new }),
        Kind::Enum => compare_enums(r, Enum { decl: old }, Enum { decl: new }),
        Kind::Flags => compare_flags(r, Flags { decl: old }, Flags { decl: new }),
        Kind::Union => compare_unions(r, Union { decl: old }, Union { decl: new }),
        Kind::Newtype => compare_newtypes(r, Newtype { decl: old }, Newtype { decl: new }),
        // Config, trait, impl: silent; so is a generic alias, of which a pair is refused.
        _ => (),
    }
}

// Two declarations under one name.
fn compare_decls(r: &mut Report<'_>, old: Decl<'_>, new: Decl<'_>)
    ensures { Reports r.old (of_decls r.old.reading old.entry new.entry) r.new }
{
    let kind = old.kind();
    if kind != new.kind() {
        r.emit(kind_changed(old, new));
        return;
    }
    compare_widths(r, old, new);
    compare_kind(r, old, new);
    compare_last(r, old, new);
}

// A declaration of a side: a change, if none stands under its name on the other.
fn unmatched_decl(
    r: &mut Report<'_>,
    side: Side,
    old: Declarations<'_>,
    new: Declarations<'_>,
    decl: Decl<'_>,
)
    ensures { Reports r.old (unmatched_decl r.old.reading old.entry new.entry side decl.entry) r.new }
{
    let other = side.off(old, new);
    if other.survivor(decl.name()).is_some() {
        return;
    }
    r.emit(lone(side, decl));
}

// The declarations of a side that do not stand on the other. Most often each name does, which is told without a walk.
#[tactic(auto, using(crate::proofs::Turns::unmatching))]
pub fn unmatched_decls(r: &mut Report<'_>, side: Side, old: Declarations<'_>, new: Declarations<'_>)
    ensures { Reports r.old (unmatched_decls r.old.reading old.entry new.entry side) r.new }
{
    let own = side.on(old, new);
    if own.all_named(side.off(old, new)) {
        return;
    }
    for decl in own.standing() {
        unmatched_decl(r, side, old, new, decl);
    }
}

// An old declaration: compared, if a new one stands under its name too.
fn kept_decl(r: &mut Report<'_>, new: Declarations<'_>, decl: Decl<'_>)
    ensures { Reports r.old (kept_decl r.old.reading new.entry decl.entry) r.new }
{
    let Some(found) = new.survivor(decl.name()) else {
        return;
    };
    compare_decls(r, decl, found);
}

// The old declarations that stand in the new image too.
#[tactic(auto, using(crate::proofs::Turns::keeping))]
pub fn kept_decls(r: &mut Report<'_>, old: Declarations<'_>, new: Declarations<'_>)
    ensures { Reports r.old (kept_decls r.old.reading old.entry new.entry) r.new }
{
    for decl in old.standing() {
        kept_decl(r, new, decl);
    }
}
