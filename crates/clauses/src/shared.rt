// What more than one clause reports: another type, a mark that is gained.
ghost use Rattle.std.specs.Prelude.{◌≡◌, ◌&&◌, not};
ghost use Rattle.details.specs.Details.{declaration_of, field_of, subject_text};
ghost use Rattle.types.specs.Resolved.{resolved};
ghost use Rattle.lines.specs.Readings.{reading_of};
ghost use Rattle.lines.specs.Reports.{Reports};
ghost use Rattle.clauses.specs.Marks.{deprecated};
ghost use Rattle.clauses.specs.Pairs.{of_types};
ghost use Rattle.clauses.specs.Readings.{reads_alike};

use details::{Detail, Scope, Subject, Value, Verb};
use lines::{Reading, Report, Site};
use parts::handles::TypeRef;
use tally::{Bump, ChangeKind};
use types::equal::types_likeness;
use types::likeness::read_as;

// Whether types that are alike are read as equal. A reading more is a case more.
#[tactic(auto, unfolding(crate::specs::Readings::reads_alike))]
fn reads_alike(reading: Reading) -> bool
    ensures { result ≡ reads_alike reading }
{
    match reading {
        Reading::Plain => false,
        Reading::Mended => true,
    }
}

// Whether two types are equal, as they are read.
#[tactic(auto, using(crate::proofs::Readings::read))]
fn types_equal(reading: Reading, a: TypeRef<'_>, b: TypeRef<'_>) -> bool
    ensures { result ≡ (reading_of reading).same (resolved a.entry) (resolved b.entry) }
{
    read_as(reads_alike(reading), types_likeness(a, b))
}

// The type of a field, or of a newtype.
pub(crate) fn compare_types<'a>(
    r: &mut Report<'_>,
    scope: Scope<'a>,
    field: Option<&'a [u8]>,
    subject: Subject<'a>,
    old: TypeRef<'a>,
    new: TypeRef<'a>,
)
    ensures { Reports r.old (of_types r.old.reading scope.entry field.entry subject.entry old.entry new.entry) r.new }
{
    if types_equal(r.reading, old, new) {
        return;
    }
    r.emit(Site {
        kind: ChangeKind::FieldTypeChanged,
        bump: Bump::MAJOR,
        scope,
        field,
        detail: Detail {
            subject,
            verb: Verb::TypeChanged,
            values: Some((Value::Type(old), Value::Type(new))),
        },
    });
}

// "mark gained; lost is silent"
fn is_gained(was: bool, is: bool) -> bool
    ensures { result ≡ (not was && is) }
{
    !was && is
}

// The mark for deprecated, of a field or of a message itself.
pub(crate) fn compare_deprecated<'a>(
    r: &mut Report<'_>,
    scope: Scope<'a>,
    field: Option<&'a [u8]>,
    subject: Subject<'a>,
    was: bool,
    is: bool,
)
    ensures { Reports r.old (deprecated (declaration_of scope.entry) (field_of field.entry) (subject_text subject.entry) was is) r.new }
{
    if !is_gained(was, is) {
        return;
    }
    r.emit(Site {
        kind: ChangeKind::FieldDeprecated,
        bump: Bump::PATCH,
        scope,
        field,
        detail: Detail {
            subject,
            verb: Verb::Deprecated,
            values: None,
        },
    });
}
