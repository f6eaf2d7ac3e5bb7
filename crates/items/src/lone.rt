// The change of an item that is gone, or that came.
ghost use Rattle.std.specs.Prelude.{◌≡◌};
ghost use Rattle.lines.specs.Sites.{change_of};
ghost use Rattle.items.specs.Lone.{lone_change, gone_of, came_of, lone_of};

use crate::{Owner, Side};
use details::{Detail, Scope, Subject, Verb, Word};
use lines::Site;
use members::handles::Item;
use tally::{Bump, ChangeKind};

// Of what kind and weight it is, where, what the item is called, and what happened to it.
#[tactic(auto, unfolding(details::specs::Details::detail_text))]
fn change<'a>(
    kind: ChangeKind,
    bump: Bump,
    scope: Scope<'a>,
    word: Word,
    verb: Verb,
    item: Item<'a>,
) -> Site<'a>
    ensures { change_of result ≡ lone_change kind bump scope.entry word verb item.entry }
{
    Site {
        kind,
        bump,
        scope,
        field: Some(item.name()),
        detail: Detail {
            subject: Subject::Item(word, item.name(), item.ordinal()),
            verb,
            values: None,
        },
    }
}

// Of an item of the old image.
fn gone<'a>(kind: ChangeKind, scope: Scope<'a>, word: Word, item: Item<'a>) -> Site<'a>
    ensures { change_of result ≡ gone_of kind scope.entry word item.entry }
{
    change(kind, Bump::MAJOR, scope, word, Verb::Removed, item)
}

// Of one of the new image.
fn came<'a>(kind: ChangeKind, bump: Bump, scope: Scope<'a>, word: Word, item: Item<'a>) -> Site<'a>
    ensures { change_of result ≡ came_of kind bump scope.entry word item.entry }
{
    change(kind, bump, scope, word, Verb::Added, item)
}

// Of an item that the old image has and the new one has not.
fn removed<'a>(of: Owner<'a>, item: Item<'a>) -> Site<'a>
    ensures { change_of result ≡ lone_of of.entry Side.Old item.entry }
{
    match of {
        Owner::Fields(scope) => gone(ChangeKind::FieldRemoved, scope, Word::Field, item),
        Owner::Enum(name, _) | Owner::Union(name) => gone(
            ChangeKind::VariantRemoved,
            Scope::Decl(name),
            Word::Variant,
            item,
        ),
        Owner::Flags(name) => gone(
            ChangeKind::FlagsBitRemoved,
            Scope::Decl(name),
            Word::Bit,
            item,
        ),
    }
}

// Of one that the new image has and the old one has not.
fn added<'a>(of: Owner<'a>, item: Item<'a>) -> Site<'a>
    ensures { change_of result ≡ lone_of of.entry Side.New item.entry }
{
    match of {
        Owner::Fields(scope) => came(
            ChangeKind::FieldAdded,
            Bump::MAJOR,
            scope,
            Word::Field,
            item,
        ),
        Owner::Enum(name, bump) => came(
            ChangeKind::VariantAdded,
            bump,
            Scope::Decl(name),
            Word::Variant,
            item,
        ),
        Owner::Flags(name) => came(
            ChangeKind::FlagsBitAdded,
            Bump::MINOR,
            Scope::Decl(name),
            Word::Bit,
            item,
        ),
        Owner::Union(name) => came(
            ChangeKind::VariantAdded,
            Bump::MINOR,
            Scope::Decl(name),
            Word::Variant,
            item,
        ),
    }
}

// Of one that only a side has.
pub(crate) fn lone<'a>(of: Owner<'a>, side: Side, item: Item<'a>) -> Site<'a>
    ensures { change_of result ≡ lone_of of.entry side item.entry }
{
    match side {
        Side::Old => removed(of, item),
        Side::New => added(of, item),
    }
}
