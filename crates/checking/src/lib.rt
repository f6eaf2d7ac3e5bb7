// All clauses over two images, in the order of the report; and refusal 11. With each image goes a set of its ids that may stand besides the
// listed ones: none for the verdict of document 01, the reached ones for that with imports.
#![tactic(auto)]

pub mod aliases;
mod decls;
mod sites;

ghost use Rattle.lines.specs.Reports.{Reports};
ghost use Rattle.checking.specs.Decls.{of_namespaces, all_changes};

use crate::decls::{kept_decls, unmatched_decls};
use details::{Scope, Subject, Value};
use items::Side;
use lines::{Report, Site};
use parts::handles::Image;
use survivors::decls::Declarations;
use tally::ChangeKind;
use types::namespaces::namespaces_equal;

// 1. The namespace.
fn compare_namespaces<'a>(r: &mut Report<'_>, old: Image<'a>, new: Image<'a>)
    ensures { Reports r.old (of_namespaces old.entry new.entry) r.new }
{
    if namespaces_equal(old, new) {
        return;
    }
    r.emit(Site::changed(
        ChangeKind::NamespaceChanged,
        Scope::Schema,
        Subject::Namespace,
        Value::Namespace(old),
        Value::Namespace(new),
    ));
}

// All clauses, in the order of the report.
pub fn check(r: &mut Report<'_>, old: Declarations<'_>, new: Declarations<'_>)
    ensures { Reports r.old (all_changes r.old.reading old.entry new.entry) r.new }
{
    compare_namespaces(r, old.image, new.image);
    unmatched_decls(r, Side::Old, old, new);
    unmatched_decls(r, Side::New, old, new);
    kept_decls(r, old, new);
}
