// The named nodes of a type, marked.
ghost use Rattle.std.specs.Prelude.{[], ◌∷◌};
ghost use Rattle.parts.specs.Handles.{label_of, tree_of};
ghost use Rattle.rules.specs.Reached.{named_label, named_in};
ghost use Rattle.reached.specs.Marks.{Ready, Marked, TypeMarked};

use parts::handles::{Image, TypeRef};
use parts::tags::Tag;
use types::nodes::inner_types;

// An id, if it is resolvable.
#[tactic(auto, using(crate::proofs::Marking::ids))]
fn mark_id(image: Image<'_>, id: u32, marks: &mut [bool])
    requires { Ready image marks.old }
    ensures { Marked image.entry marks.old (id ∷ []) marks.new }
{
    if image.entry(id).is_some() {
        marks[id as usize] = true;
    }
}

// The id of a node, if it is a named one.
fn mark_label(t: TypeRef<'_>, marks: &mut [bool])
    requires { Ready t.image marks.old }
    ensures { Marked t.entry.image marks.old (named_label (label_of t.entry)) marks.new }
{
    if t.tag() == Tag::Named {
        mark_id(t.image, t.id(), marks);
    }
}

// A type: it calls itself on inner types, each from the place where the one before it ended, with a node less on a path, and answers the place
// after it.
fn mark_nodes(t: TypeRef<'_>, marks: &mut [bool]) -> usize
    requires { Ready t.image marks.old }
    ensures { TypeMarked t.entry.image t.entry.at marks.old result marks.new }
{
    mark_label(t, marks);
    let inner = inner_types(t.tag());
    let first = t.label_end();
    if inner == 0 {
        return first;
    }
    let second = mark_nodes(t.inner_at(first), marks);
    if inner == 1 {
        return second;
    }
    mark_nodes(t.inner_at(second), marks)
}

// A whole type.
pub(crate) fn mark_type(t: TypeRef<'_>, marks: &mut [bool])
    requires { Ready t.image marks.old }
    ensures { Marked t.entry.image marks.old (named_in (tree_of t.entry)) marks.new }
{
    mark_nodes(t, marks);
}
