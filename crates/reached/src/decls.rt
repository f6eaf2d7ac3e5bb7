// The named nodes in the compared types of declarations, marked.
ghost use Rattle.parts.specs.Handles.{schema_in, decl_of};
ghost use Rattle.rules.specs.Survivors.{stands_for, view_of};
ghost use Rattle.rules.specs.Reached.{named_of, named_by, named_from};
ghost use Rattle.reached.specs.Marks.{Ready, Started, Marked};

use crate::fields::{mark_fields, mark_variants};
use crate::nodes::mark_type;
use crate::standing::{is_survivor, survivors};
use members::kinds::ByKind;
use parts::handles::{Decl, Image};

// A declaration: the fields of a message, the variants of a union, the type of a newtype. Others have no compared types.
#[tactic(auto, using(crate::proofs::Declared::kinds))]
fn mark_decl(decl: Decl<'_>, marks: &mut [bool])
    requires { Ready decl.image marks.old }
    ensures { Marked decl.entry.image marks.old (named_of (decl_of decl.entry)) marks.new }
{
    match ByKind::of(decl) {
        ByKind::Message(message) => mark_fields(message.fields(), marks),
        ByKind::Union(union) => mark_variants(union.variants(), marks),
        ByKind::Newtype(newtype) => mark_type(newtype.inner(), marks),
        _ => {}
    }
}

// The survivors, by rising name.
#[tactic(auto, using(crate::proofs::Declared::survivors))]
pub(crate) fn mark_survivors(image: Image<'_>, marks: &mut [bool])
    requires { Ready image marks.old }
    ensures { Marked image.entry marks.old (named_from (view_of (schema_in image.entry))) marks.new }
{
    for decl in survivors(image) {
        mark_decl(decl, marks);
    }
}

// The entry of an id. What a survivor names is marked already.
#[tactic(auto, using(crate::proofs::Declared::entries))]
pub(crate) fn mark_entry(image: Image<'_>, id: u32, marks: &mut [bool])
    requires { Started image marks.old }
    ensures { Marked image.entry marks.old (named_by (stands_for (schema_in image.entry).registry id)) marks.new }
{
    let Some(decl) = image.entry(id) else {
        return;
    };
    if is_survivor(decl) {
        return;
    }
    mark_decl(decl, marks);
}
