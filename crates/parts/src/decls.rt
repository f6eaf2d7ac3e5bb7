// Declarations at places of the image.
ghost use Rattle.std.specs.Prelude.{◌≡◌, ◌<◌, ◌≤◌, length};
ghost use Rattle.image.specs.Codes.{number, newtype_kind, impl_kind};
ghost use Rattle.image.specs.Fields.{marks_of};
ghost use Rattle.image.specs.Formats.{has_tombstones};
ghost use Rattle.image.specs.Image.{format};
ghost use Rattle.image.specs.Numbers.{kind_number};
ghost use Rattle.parts.specs.Promise.{DeclHere, decl_in, marked, measured, stores_width, width_place, inner_place};

use crate::names::name_end;
use crate::starts::{start_kind, start_name};
use image::formats::Format;
use image::kinds::Kind;
use image::numbers::u16_at;

#[tactic(auto, using(crate::proofs::Laws::Decls::heads))]
pub fn decl_kind(image: &[u8], at: usize) -> Kind
    requires { DeclHere image.now at }
    ensures { kind_number result ≡ (decl_in image.now at).kind }
{
    start_kind(image, at)
}

// The bytes of the name; an impl's is empty.
#[tactic(auto, using(crate::proofs::Laws::Decls::heads))]
pub fn decl_name(image: &[u8], at: usize) -> &[u8]
    requires { DeclHere image.now at }
    ensures { result.now ≡ (decl_in image.now at).name }
{
    start_name(image, at)
}

// Whether declarations of a kind have marks.
#[tactic(auto, unfolding(crate::specs::Promise::marked))]
fn is_marked(kind: Kind) -> bool
    ensures { result ≡ marked (kind_number kind) }
{
    matches!(kind, Kind::Message | Kind::Enum)
}

// The marks of a declaration as one number; of a kind without them there are none.
#[tactic(auto, using(crate::proofs::Laws::Decls::marks))]
fn marks(image: &[u8], at: usize) -> u8
    requires { DeclHere image.now at }
    ensures { marks_of result ≡ (decl_in image.now at).marks }
{
    if !is_marked(decl_kind(image, at)) {
        return 0;
    }
    image[name_end(image, at + 1)]
}

// Whether a declaration is marked as deprecated.
#[tactic(auto, unfolding(image::specs::Fields::marks_of))]
pub fn deprecated(image: &[u8], at: usize) -> bool
    requires { DeclHere image.now at }
    ensures { result ≡ (decl_in image.now at).marks.deprecated }
{
    marks(image, at) % 2 == 1
}

// Whether a declaration is marked as non-exhaustive.
#[tactic(auto, unfolding(image::specs::Fields::marks_of))]
pub fn non_exhaustive(image: &[u8], at: usize) -> bool
    requires { DeclHere image.now at }
    ensures { result ≡ (decl_in image.now at).marks.non_exhaustive }
{
    marks(image, at) / 2 == 1
}

// Whether declarations of a kind have a width, in a format that stores it.
#[tactic(auto, unfolding(crate::specs::Promise::measured))]
fn is_measured(kind: Kind) -> bool
    ensures { result ≡ measured (kind_number kind) }
{
    matches!(kind, Kind::Enum | Kind::Flags)
}

// The number of the image's format. A number and no `Format`, since a declaration may stand in bytes that are of none.
#[tactic(auto, unfolding(image::specs::Image::format, image::specs::Image::u16_at))]
fn format_number(image: &[u8]) -> usize
    requires { 2 ≤ length image.now }
    ensures { result ≡ format image.now }
{
    u16_at(image, 0)
}

// Whether the width of a declaration is stored.
#[tactic(auto, using(crate::proofs::Laws::Decls::widths), unfolding(image::specs::Formats::has_widths))]
pub fn stores_width(image: &[u8], at: usize) -> bool
    requires { DeclHere image.now at }
    ensures { result ≡ stores_width (format image.now) (decl_in image.now at).kind }
{
    if !is_measured(decl_kind(image, at)) {
        return false;
    }
    // The formats from this one on store it.
    format_number(image) >= Format::Two as usize
}

// Whether the image's format stores the numbers that are struck off.
#[tactic(auto, unfolding(image::specs::Formats::has_tombstones))]
pub fn stores_tombstones(image: &[u8]) -> bool
    requires { 2 ≤ length image.now }
    ensures { result ≡ has_tombstones (format image.now) }
{
    // The formats from this one on do.
    format_number(image) >= Format::Three as usize
}

// The place after the name and the marks, where the width stands if it is stored.
#[tactic(auto, using(crate::proofs::Laws::Decls::width_places))]
pub fn width_place(image: &[u8], at: usize) -> usize
    requires { DeclHere image.now at × ((decl_in image.now at).kind < number impl_kind) }
    ensures { result ≡ width_place image.now at }
{
    let end = name_end(image, at + 1);
    if is_marked(decl_kind(image, at)) {
        return end + 1;
    }
    end
}

// The width of a declaration: of an enum in wire bits, of flags in wire bytes. Nothing else has one, nor do they in a format without widths.
#[tactic(auto, using(crate::proofs::Laws::Decls::widths))]
pub fn width(image: &[u8], at: usize) -> Option<u8>
    requires { DeclHere image.now at }
    ensures { result ≡ (decl_in image.now at).width }
{
    if !stores_width(image, at) {
        return None;
    }
    Some(image[width_place(image, at)])
}

// Where a newtype's type stands.
#[tactic(auto, using(crate::proofs::Laws::Decls::heads), unfolding(crate::specs::Promise::inner_place))]
pub fn inner_type(image: &[u8], at: usize) -> usize
    requires { DeclHere image.now at × ((decl_in image.now at).kind ≡ number newtype_kind) }
    ensures { result ≡ inner_place image.now at }
{
    name_end(image, at + 1)
}
