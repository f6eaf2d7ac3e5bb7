// How alike two types are, each at its place in its own image.
ghost use Rattle.std.specs.Prelude.{◌≡◌};
ghost use Rattle.parts.specs.Codes.{number, sub_byte_tag};
ghost use Rattle.parts.specs.Handles.{label_of};
ghost use Rattle.rules.specs.Equal.{same_names};
ghost use Rattle.rules.specs.Types.{same_label};
ghost use Rattle.rules.specs.Mended.{likeness};
ghost use Rattle.types.specs.Resolved.{named_by, node_of, resolved};
ghost use Rattle.types.specs.Likeness.{same_codes, likeness_of, After, Compares};

use crate::likeness::{Likeness, joined, of_tag};
use crate::names::same_names;
use crate::nodes::inner_types;
use parts::handles::{Image, TypeRef};
use parts::tags::Tag;

// Two types that are not different: how alike they are, and the places after them.
#[derive(Clone, Copy)]
struct Compared {
    likeness: Likeness,
    old_end: usize,
    new_end: usize,
}

// Whether two ids stand for the same name, each in its own registry; two that are unresolvable are equal too.
#[tactic(auto, using(crate::proofs::Laws::Labels::ids))]
fn named_equal(a: Image<'_>, old: u32, b: Image<'_>, new: u32) -> bool
    ensures { result ≡ same_names (named_by a.entry.bytes.now old) (named_by b.entry.bytes.now new) }
{
    match (a.entry(old), b.entry(new)) {
        (Some(i), Some(j)) => i.name() == j.name(),
        (None, None) => true,
        _ => false,
    }
}

// Whether two sub-bytes are both signed or both not, and have as many bits.
fn sub_bytes_equal(a: TypeRef<'_>, b: TypeRef<'_>) -> bool
    requires { ((label_of a).tag ≡ number sub_byte_tag) × ((label_of b).tag ≡ number sub_byte_tag) }
    ensures { result ≡ same_codes (label_of a.entry) (label_of b.entry) }
{
    a.code() == b.code() && a.bits() == b.bits()
}

// Whether two nodes are the same but for their inner types. Vectors, quaternions and matrices are compared like the others.
fn labels_equal(a: TypeRef<'_>, b: TypeRef<'_>) -> bool
    ensures { result ≡ same_label (node_of a.entry) (node_of b.entry) }
{
    let tag = a.tag();
    if tag != b.tag() {
        return false;
    }
    match tag {
        Tag::Primitive | Tag::Semantic => a.code() == b.code(),
        Tag::SubByte => sub_bytes_equal(a, b),
        Tag::Named => named_equal(a.image, a.id(), b.image, b.id()),
        Tag::FixedArray => a.size() == b.size(),
        Tag::Bits => same_names(a.names(), b.names()),
        _ => true,
    }
}

// What is compared after something else: both together.
fn after(before: Likeness, rest: Compared) -> Compared
    ensures { After (likeness_of before) rest result }
{
    Compared {
        likeness: joined(before, rest.likeness),
        old_end: rest.old_end,
        new_end: rest.new_end,
    }
}

// Two types, walked together: it calls itself on inner types, each from the place where the one before it ended, with a node less on a path.
// It goes on past vectors, and ends with nothing where the types are different.
fn compare_nodes(a: TypeRef<'_>, b: TypeRef<'_>) -> Option<Compared>
    ensures { Compares a.entry b.entry result }
{
    if !labels_equal(a, b) {
        return None;
    }
    let tag = a.tag();
    let node = of_tag(tag);
    let inner = inner_types(tag);
    let p = a.label_end();
    let q = b.label_end();
    if inner == 0 {
        return Some(Compared {
            likeness: node,
            old_end: p,
            new_end: q,
        });
    }
    let head = compare_nodes(a.inner_at(p), b.inner_at(q))?;
    let first = after(node, head);
    if inner == 1 {
        return Some(first);
    }
    let rest = compare_nodes(a.inner_at(first.old_end), b.inner_at(first.new_end))?;
    Some(after(first.likeness, rest))
}

// How alike two types are: named types by their names, each from its own registry.
#[tactic(auto, unfolding(crate::specs::Likeness::likeness_of))]
pub fn types_likeness(a: TypeRef<'_>, b: TypeRef<'_>) -> Likeness
    ensures { likeness_of result ≡ likeness (resolved a.entry) (resolved b.entry) }
{
    match compare_nodes(a, b) {
        Some(compared) => compared.likeness,
        None => Likeness::Different,
    }
}
