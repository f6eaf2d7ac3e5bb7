// Bodies: a kind, and what it has in the image's format.
ghost use Rattle.std.specs.Prelude.{◌≡◌};
ghost use Rattle.image.specs.Kinds.{kind_of};
ghost use Rattle.image.specs.Bodies.{message_at, enum_at, flags_at, union_at, newtype_at, decl_at, body_of};
ghost use Rattle.image.specs.Numbers.{format_number, kind_number};
ghost use Rattle.image.specs.Parse.{bind};
ghost use Rattle.image.specs.Reads.{read_of, skip};
ghost use Rattle.image.specs.Tombstones.{tombstones_at};

use image::Read;
use image::fields::{read_bares, read_fields, read_marks, read_variants};
use image::formats::Format;
use image::kinds::Kind;
use image::names::read_name;
use image::numbers::read_byte;
use image::refusals::Refusal;
use image::tombstones::read_tombstones;
use image::types::read_type_at;
use image::widths::{read_wire_bits, read_wire_bytes};

// Name, marks, fields.
#[tactic(auto, using(crate::proofs::Laws::Bodies::messages))]
fn read_message(s: &[u8], at: usize) -> Read
    ensures { read_of result ≡ skip (message_at s.now at) }
{
    let name = read_name(s, at, Refusal::Body);
    let Ok(marks_at) = name else {
        return name;
    };
    let marks = read_marks(s, marks_at);
    let Ok(fields_at) = marks else {
        return marks;
    };
    read_fields(s, fields_at)
}

// Name, marks, width, variants without fields.
#[tactic(auto, using(crate::proofs::Laws::Bodies::enums))]
fn read_enum(format: Format, s: &[u8], at: usize) -> Read
    ensures { read_of result ≡ skip (enum_at (format_number format) s.now at) }
{
    let name = read_name(s, at, Refusal::Body);
    let Ok(marks_at) = name else {
        return name;
    };
    let marks = read_marks(s, marks_at);
    let Ok(width_at) = marks else {
        return marks;
    };
    let width = read_wire_bits(format, s, width_at);
    let Ok(variants_at) = width else {
        return width;
    };
    read_bares(s, variants_at)
}

// Name, width, bits.
#[tactic(auto, using(crate::proofs::Laws::Bodies::flags))]
fn read_flags(format: Format, s: &[u8], at: usize) -> Read
    ensures { read_of result ≡ skip (flags_at (format_number format) s.now at) }
{
    let name = read_name(s, at, Refusal::Body);
    let Ok(width_at) = name else {
        return name;
    };
    let width = read_wire_bytes(format, s, width_at);
    let Ok(bits_at) = width else {
        return width;
    };
    read_bares(s, bits_at)
}

// Name, variants with fields.
#[tactic(auto, using(crate::proofs::Laws::Bodies::unions))]
fn read_union(format: Format, s: &[u8], at: usize) -> Read
    ensures { read_of result ≡ skip (union_at (format_number format) s.now at) }
{
    let name = read_name(s, at, Refusal::Body);
    let Ok(variants_at) = name else {
        return name;
    };
    read_variants(format, s, variants_at)
}

// Name, type.
#[tactic(auto, using(crate::proofs::Laws::Bodies::newtypes))]
fn read_newtype(s: &[u8], at: usize) -> Read
    ensures { read_of result ≡ skip (newtype_at s.now at) }
{
    let name = read_name(s, at, Refusal::Body);
    let Ok(type_at) = name else {
        return name;
    };
    read_type_at(s, type_at)
}

// The tombstones that close what was read before them.
fn close(format: Format, s: &[u8], body: Read) -> Read
    ensures { read_of result ≡ bind (read_of body) (λ _ n. skip (tombstones_at (format_number format) s.now n)) }
{
    let Ok(end) = body else {
        return body;
    };
    read_tombstones(format, s, end)
}

// What follows the kind: configs, generic aliases and traits have only a name, impls have nothing.
fn read_decl(format: Format, kind: Kind, s: &[u8], at: usize) -> Read
    ensures { read_of result ≡ skip (decl_at (format_number format) (kind_of (kind_number kind)) s.now at) }
{
    match kind {
        Kind::Message => close(format, s, read_message(s, at)),
        Kind::Enum => close(format, s, read_enum(format, s, at)),
        Kind::Flags => close(format, s, read_flags(format, s, at)),
        Kind::Union => close(format, s, read_union(format, s, at)),
        Kind::Newtype => read_newtype(s, at),
        Kind::Config | Kind::Alias | Kind::Trait => read_name(s, at, Refusal::Body),
        Kind::Impl => Ok(at),
    }
}

// A whole body: nothing is left.
pub(crate) fn read_body(format: Format, s: &[u8]) -> Read
    ensures { read_of result ≡ skip (body_of (format_number format) s.now) }
{
    let kind = read_byte(s, 0);
    let Ok(start) = kind else {
        return kind;
    };
    let decl = read_decl(format, Kind::try_from(s[0])?, s, start);
    let Ok(end) = decl else {
        return decl;
    };
    if end != s.len() {
        return Err(Refusal::Body);
    }
    decl
}
