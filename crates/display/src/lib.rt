// How types, encodings and namespaces of accepted images are shown.
#![tactic(auto, using(text::proofs::Writers::after_after))]

pub mod encodings;
mod names;
pub mod namespaces;
pub mod words;

ghost use Rattle.std.specs.Prelude.{◌≡◌, ◌<◌};
ghost use Rattle.parts.specs.Codes.{number, sub_byte_tag, named_tag};
ghost use Rattle.parts.specs.Handles.{label_of};
ghost use Rattle.parts.specs.Promise.{type_end};
ghost use Rattle.rules.specs.Text.{show_name, show_leaf, show_size, show_type};
ghost use Rattle.text.specs.Writers.{Adds};
ghost use Rattle.types.specs.Resolved.{named_by, node_of, resolved};

use crate::names::names_display;
use crate::words::{put_opening, put_primitive, put_semantic, put_sign};
use parts::handles::{Image, TypeRef};
use parts::tags::Tag;
use text::Writer;
use types::nodes::inner_types;

// The name that an id stands for, or `<unknown>`.
#[tactic(auto, using(crate::proofs::Laws::Texts::ids), unfolding(image::specs::Words::bytes))]
fn named_display(w: &mut Writer<'_>, image: Image<'_>, id: u32)
    ensures { Adds w.old (show_name (named_by image.entry.bytes.now id)) w.new }
{
    let Some(decl) = image.entry(id) else {
        w.text(b"<unknown>");
        return;
    };
    w.text(decl.name());
}

// `u3`, `i5`.
#[tactic(auto, using(text::proofs::Writers::after_after, crate::proofs::Laws::Texts::leaf_sub_byte))]
fn sub_byte_display(w: &mut Writer<'_>, t: TypeRef<'_>)
    requires { (label_of t).tag ≡ number sub_byte_tag }
    ensures { Adds w.old (show_leaf (node_of t.entry)) w.new }
{
    put_sign(w, t.code());
    w.number(t.bits() as u64);
}

// `bits { a, b }`.
#[tactic(auto, using(text::proofs::Writers::after_after, crate::proofs::Laws::Texts::leaf_bits), unfolding(image::specs::Words::bytes))]
fn bits_display(w: &mut Writer<'_>, t: TypeRef<'_>)
    requires { number named_tag < (label_of t).tag }
    ensures { Adds w.old (show_leaf (node_of t.entry)) w.new }
{
    w.text(b"bits { ");
    names_display(w, t.names(), b", ");
    w.text(b" }");
}

// A type without inner types.
#[tactic(auto, using(crate::proofs::Laws::Texts::leaves))]
fn leaf_display(w: &mut Writer<'_>, t: TypeRef<'_>)
    ensures { Adds w.old (show_leaf (node_of t.entry)) w.new }
{
    match t.tag() {
        Tag::Primitive => put_primitive(w, t.code()),
        Tag::SubByte => sub_byte_display(w, t),
        Tag::Semantic => put_semantic(w, t.code()),
        Tag::Named => named_display(w, t.image, t.id()),
        _ => bits_display(w, t),
    }
}

// `, 4` in `array<T, 4>`: only a fixed array has a size.
#[tactic(auto, using(text::proofs::Writers::after_after, crate::proofs::Laws::Texts::sizes), unfolding(image::specs::Words::bytes))]
fn size_display(w: &mut Writer<'_>, t: TypeRef<'_>)
    ensures { Adds w.old (show_size (node_of t.entry)) w.new }
{
    if let Tag::FixedArray = t.tag() {
        w.text(b", ");
        w.number(t.size());
    }
}

// A type, and the place in the image after it: it calls itself on inner types, each from the place where the one before it ended.
fn node_display(w: &mut Writer<'_>, t: TypeRef<'_>) -> usize
    ensures text { Adds w.old (show_type (resolved t.entry)) w.new }
    ensures end { result ≡ type_end t.entry.image.bytes.now t.entry.at }
{
    let tag = t.tag();
    let inner = inner_types(tag);
    let first = t.label_end();
    if inner == 0 {
        leaf_display(w, t);
        return first;
    }
    put_opening(w, tag);
    let next = node_display(w, t.inner_at(first));
    if inner == 1 {
        size_display(w, t);
        w.byte(b'>');
        return next;
    }
    w.text(b", ");
    let end = node_display(w, t.inner_at(next));
    w.byte(b'>');
    end
}

// A type.
pub fn type_display(w: &mut Writer<'_>, t: TypeRef<'_>)
    ensures { Adds w.old (show_type (resolved t.entry)) w.new }
{
    node_display(w, t);
}
