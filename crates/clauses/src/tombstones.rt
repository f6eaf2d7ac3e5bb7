// The numbers that are struck off: no clause compares them, and the mended reading reports them last.
ghost use Rattle.std.specs.Prelude.{◌≡◌};
ghost use Rattle.maps.specs.Lists.{among};
ghost use Rattle.parts.specs.Handles.{decl_of};
ghost use Rattle.parts.specs.declared.Shape.{Shape};
ghost use Rattle.members.specs.Handles.{variant_of};
ghost use Rattle.rules.specs.Tombstones.{compare_last};
ghost use Rattle.survivors.specs.Answers.{ordinal_at};
ghost use Rattle.survivors.specs.Runs.{ordinals_of};
ghost use Rattle.tally.specs.Tallies.{kind_number};
ghost use Rattle.details.specs.Details.{declaration_of, verb_text};
ghost use Rattle.lines.specs.Reports.{Reports};
ghost use Rattle.lines.specs.Sites.{change_of};
ghost use Rattle.clauses.specs.Pairs.{of_last, of_last_in};
ghost use Rattle.clauses.specs.Tombstones.{tombstone_kind, tombstone_verb, tombstone_change, happened, told_of, all_told, of_bodies};

use details::{Detail, Scope, Subject, Verb};
use lines::{Reading, Report, Site};
use members::bodies::body_of;
use members::handles::{Body, Item, Items, Variant};
use parts::decls::stores_tombstones;
use parts::handles::Decl;
use survivors::items::has_item;
use survivors::standing::standing_items;
use tally::{Bump, ChangeKind};

// What happened to a number that was struck off: an item has it again, or it is struck off no longer.
#[derive(Clone, Copy)]
enum TombstoneChange {
    Reused,
    Dropped,
}

// Of what kind the change is.
fn kind(change: TombstoneChange) -> ChangeKind
    ensures { kind_number result ≡ tombstone_kind change }
{
    match change {
        TombstoneChange::Reused => ChangeKind::TombstoneReused,
        TombstoneChange::Dropped => ChangeKind::TombstoneDropped,
    }
}

// What is said of the number.
fn verb(change: TombstoneChange) -> Verb
    ensures { verb_text result ≡ tombstone_verb change }
{
    match change {
        TombstoneChange::Reused => Verb::Reused,
        TombstoneChange::Dropped => Verb::Dropped,
    }
}

// The change: Major, and without a field. "tombstone @3 was reused".
#[tactic(auto, unfolding(details::specs::Details::detail_text, image::specs::Words::bytes))]
fn tombstone(change: TombstoneChange, scope: Scope<'_>, number: u32) -> Site<'_>
    ensures { change_of result ≡ tombstone_change change (declaration_of scope.entry) number }
{
    Site {
        kind: kind(change),
        bump: Bump::MAJOR,
        scope,
        field: None,
        detail: Detail {
            subject: Subject::Tombstone(number),
            verb: verb(change),
            values: None,
        },
    }
}

// Whether an item has a number.
#[tactic(auto, using(survivors::proofs::Used::has_among))]
fn is_among(items: Items<'_>, number: u32) -> bool
    ensures { result ≡ among number (ordinals_of items.entry) }
{
    has_item(items.places(), number)
}

// Whether that happened to a number: by the items that the new side has, and the numbers that it strikes off.
fn has_happened(change: TombstoneChange, new: Items<'_>, still: Items<'_>, number: u32) -> bool
    ensures { result ≡ happened change (ordinals_of new.entry) (ordinals_of still.entry) number }
{
    match change {
        TombstoneChange::Reused => is_among(new, number),
        TombstoneChange::Dropped => !is_among(new, number) && !is_among(still, number),
    }
}

// A number that the old side strikes off.
fn compare_number(
    r: &mut Report<'_>,
    change: TombstoneChange,
    scope: Scope<'_>,
    new: Items<'_>,
    still: Items<'_>,
    number: Item<'_>,
)
    ensures { Reports r.old (told_of change (declaration_of scope.entry) (ordinals_of new.entry) (ordinals_of still.entry) (ordinal_at number.entry)) r.new }
{
    if !has_happened(change, new, still, number.ordinal()) {
        return;
    }
    r.emit(tombstone(change, scope, number.ordinal()));
}

// All that it strikes off, rising.
#[tactic(auto, using(crate::proofs::Struck::telling))]
fn compare_numbers(
    r: &mut Report<'_>,
    change: TombstoneChange,
    scope: Scope<'_>,
    struck: Items<'_>,
    new: Items<'_>,
    still: Items<'_>,
)
    requires { struck.shape ≡ Shape.Number }
    ensures { Reports r.old (all_told change (declaration_of scope.entry) struck.entry new.entry still.entry) r.new }
{
    for number in standing_items(struck) {
        compare_number(r, change, scope, new, still, number);
    }
}

// Two bodies: all that was reused before all that was dropped. Where the old image stores none, nothing is searched.
#[tactic(auto, using(members::proofs::Closing::format_there))]
fn compare_struck(r: &mut Report<'_>, scope: Scope<'_>, old: Body<'_>, new: Body<'_>)
    ensures { Reports r.old (of_bodies (declaration_of scope.entry) old.entry new.entry) r.new }
{
    if !stores_tombstones(old.items.image.bytes) {
        return;
    }
    let struck = old.tombstones();
    let still = new.tombstones();
    compare_numbers(r, TombstoneChange::Reused, scope, struck, new.items, still);
    compare_numbers(r, TombstoneChange::Dropped, scope, struck, new.items, still);
}

// Two declarations of one kind, by their bodies, if they have any.
fn compare_bodies(r: &mut Report<'_>, old: Decl<'_>, new: Decl<'_>)
    requires { (decl_of new).kind ≡ (decl_of old).kind }
    ensures { Reports r.old (compare_last (decl_of old.entry) (decl_of new.entry)) r.new }
{
    let Some(was) = body_of(old) else {
        return;
    };
    let Some(is) = body_of(new) else {
        return;
    };
    compare_struck(r, Scope::Decl(old.name()), was, is);
}

// Two declarations of one kind, after their clause.
pub fn compare_last(r: &mut Report<'_>, old: Decl<'_>, new: Decl<'_>)
    requires { (decl_of new).kind ≡ (decl_of old).kind }
    ensures { Reports r.old (of_last r.old.reading old.entry new.entry) r.new }
{
    match r.reading {
        Reading::Plain => {}
        Reading::Mended => compare_bodies(r, old, new),
    }
}

// Two variants of a union, after their fields, under a name.
pub(crate) fn compare_last_in(
    r: &mut Report<'_>,
    scope: Scope<'_>,
    old: Variant<'_>,
    new: Variant<'_>,
)
    ensures { Reports r.old (of_last_in r.old.reading scope.entry old.entry new.entry) r.new }
{
    match r.reading {
        Reading::Plain => {}
        Reading::Mended => compare_struck(r, scope, old.body(), new.body()),
    }
}
