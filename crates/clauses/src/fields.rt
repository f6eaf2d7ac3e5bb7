// 4. Field sets, by ordinal.
ghost use Rattle.std.specs.Prelude.{◌≡◌};
ghost use Rattle.members.specs.Handles.{field_of};
ghost use Rattle.parts.specs.declared.Shape.{Shape};
ghost use Rattle.rules.specs.Clauses.{compare_field_names, compare_encodings};
ghost use Rattle.survivors.specs.Answers.{Among};
ghost use Rattle.details.specs.Details.{declaration_of};
ghost use Rattle.lines.specs.Reports.{Reports};
ghost use Rattle.items.specs.Items.{kept_at};
ghost use Rattle.items.specs.declared.Owner.{Owner};
ghost use Rattle.clauses.specs.Fields.{same_coding};
ghost use Rattle.clauses.specs.Pairs.{of_fields, of_field_sets};

use crate::shared::{compare_deprecated, compare_types};
use details::{Detail, Scope, Subject, Value, Verb, Word};
use items::pairs::Pair;
use items::unmatched::unmatched_items;
use items::{Owner, Side};
use lines::{Report, Site};
use members::handles::{Field, Item, Items};
use survivors::standing::{standing_item, standing_items};
use tally::{Bump, ChangeKind};
use types::names::same_name;

// Another name.
fn compare_names<'a>(r: &mut Report<'_>, scope: Scope<'a>, old: Field<'a>, new: Field<'a>)
    ensures { Reports r.old (compare_field_names (declaration_of scope.entry) (field_of old.entry) (field_of new.entry)) r.new }
{
    let was = old.name();
    let is = new.name();
    if same_name(was, is) {
        return;
    }
    r.emit(Site {
        kind: ChangeKind::FieldRenamed,
        bump: Bump::PATCH,
        scope,
        field: Some(is),
        detail: Detail {
            subject: Subject::FieldOrdinal(new.ordinal()),
            verb: Verb::Renamed,
            values: Some((Value::Name(was), Value::Name(is))),
        },
    });
}

// Whether two fields have the same encoding and the same limit.
fn is_same_coding(old: Field<'_>, new: Field<'_>) -> bool
    ensures { result ≡ same_coding (field_of old.entry) (field_of new.entry) }
{
    old.encoding() == new.encoding() && old.limit() == new.limit()
}

// Another encoding or limit.
fn compare_encodings<'a>(r: &mut Report<'_>, scope: Scope<'a>, old: Field<'a>, new: Field<'a>)
    ensures { Reports r.old (compare_encodings (declaration_of scope.entry) (field_of old.entry) (field_of new.entry)) r.new }
{
    if is_same_coding(old, new) {
        return;
    }
    let name = new.name();
    r.emit(Site {
        kind: ChangeKind::FieldEncodingChanged,
        bump: Bump::MAJOR,
        scope,
        field: Some(name),
        detail: Detail {
            subject: Subject::Item(Word::Field, name, new.ordinal()),
            verb: Verb::EncodingChanged,
            values: Some((
                Value::Encoding(old.encoding()),
                Value::Encoding(new.encoding()),
            )),
        },
    });
}

// Two fields under one ordinal.
fn compare_fields<'a>(r: &mut Report<'_>, scope: Scope<'a>, old: Field<'a>, new: Field<'a>)
    ensures { Reports r.old (of_fields r.old.reading scope.entry old.entry new.entry) r.new }
{
    let name = new.name();
    compare_names(r, scope, old, new);
    let subject = Subject::Item(Word::Field, name, new.ordinal());
    compare_types(r, scope, Some(name), subject, old.ty(), new.ty());
    compare_encodings(r, scope, old, new);
    let subject = Subject::FieldName(name);
    compare_deprecated(
        r,
        scope,
        Some(name),
        subject,
        old.deprecated(),
        new.deprecated(),
    );
}

// An old field: compared, if a new one stands under its ordinal too.
fn kept_field<'a>(r: &mut Report<'_>, scope: Scope<'a>, pair: Pair<'a>, old: Item<'a>)
    requires { (pair.of ≡ Owner.Fields scope) × Among pair.old old }
    ensures { Reports r.old (kept_at r.old.reading pair.entry old.entry) r.new }
{
    let Some(new) = standing_item(pair.new, old.ordinal()) else {
        return;
    };
    compare_fields(r, scope, Field { item: old }, Field { item: new });
}

// The fields of what a scope names: removed, added, kept.
#[tactic(auto, using(items::proofs::Walks::keeping))]
pub(crate) fn compare_field_sets<'a>(
    r: &mut Report<'_>,
    scope: Scope<'a>,
    old: Items<'a>,
    new: Items<'a>,
)
    requires { (old.shape ≡ Shape.Field) × (new.shape ≡ Shape.Field) }
    ensures { Reports r.old (of_field_sets r.old.reading scope.entry old.entry new.entry) r.new }
{
    let pair = Pair::new(Owner::Fields(scope), old, new);
    unmatched_items(r, Side::Old, pair);
    unmatched_items(r, Side::New, pair);
    for field in standing_items(old) {
        kept_field(r, scope, pair, field);
    }
}
