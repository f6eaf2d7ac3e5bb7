// The parts of a field after its name: marks, encoding, limit, type.
ghost use Rattle.std.specs.Prelude.{◌≡◌, ◌&&◌, ◌+◌, ◌<◌, eqb, length, get_or};
ghost use Rattle.image.specs.Fields.{encoding_at};
ghost use Rattle.image.specs.WellFormed.{Good};
ghost use Rattle.parts.specs.declared.Shape.{Shape};
ghost use Rattle.parts.specs.Promise.{ItemHere, item_end, field_in, encoding_in, limit_place, type_place, coding_of};

use image::numbers::u64_at;
use parts::names::name_end;
use parts::types::type_end;
use parts::{Coding, Encoding};

// Whether a field is marked as deprecated.
#[tactic(auto, using(parts::proofs::Laws::Fields::deprecation))]
pub fn field_deprecated(image: &[u8], at: usize) -> bool
    requires { ItemHere Shape.Field image.now at }
    ensures { result ≡ (field_in image.now at).marks.deprecated }
{
    let marks = name_end(image, at + 4);
    image[marks] % 2 == 1
}

// The deltas of an encoding: so many bytes 3 before its base.
#[tactic(auto, using(parts::proofs::Laws::Fields::counting))]
fn deltas(image: &[u8], at: usize) -> usize
    requires { Good (encoding_at image.now at) }
    ensures { result ≡ (encoding_in image.now at).deltas }
{
    let mut n: usize = 0;
    while image[at + n] == 3 {
        n += 1;
    }
    n
}

// A field's encoding.
#[tactic(auto, using(parts::proofs::Laws::Fields::encodings))]
pub fn field_encoding(image: &[u8], at: usize) -> Encoding
    requires { ItemHere Shape.Field image.now at }
    ensures { coding_of result ≡ (field_in image.now at).encoding }
{
    let start = name_end(image, at + 4) + 1;
    let n = deltas(image, start);
    let base = match image[start + n] {
        0 => Coding::Default,
        1 => Coding::Varint,
        2 => Coding::Zigzag,
        _ => unreachable!(),
    };
    Encoding { deltas: n, base }
}

// Where a field's limit stands.
#[tactic(auto, using(parts::proofs::Laws::Fields::encodings))]
fn limit_place(image: &[u8], at: usize) -> usize
    requires { ItemHere Shape.Field image.now at }
    ensures { result ≡ limit_place image.now at }
{
    let start = name_end(image, at + 4) + 1;
    start + deltas(image, start) + 1
}

// A field's limit, if it has one.
#[tactic(auto, using(parts::proofs::Laws::Fields::limits))]
pub fn field_limit(image: &[u8], at: usize) -> Option<u64>
    requires { ItemHere Shape.Field image.now at }
    ensures { result ≡ (field_in image.now at).limit }
{
    let place = limit_place(image, at);
    if image[place] == 0 {
        return None;
    }
    Some(u64_at(image, place + 1))
}

// Whether an encoding at a place is the default, and no limit follows.
fn is_plain(image: &[u8], at: usize) -> bool
    requires { at + 1 < length image.now }
    ensures { result ≡ (eqb (get_or image.now at 0) 0 && eqb (get_or image.now (at + 1) 0) 0) }
{
    image[at] == 0 && image[at + 1] == 0
}

// Where a field's type stands. Most fields are plain: their type is found by the length of the name alone.
#[tactic(auto, using(parts::proofs::Laws::Fields::types))]
pub fn field_type(image: &[u8], at: usize) -> usize
    requires { ItemHere Shape.Field image.now at }
    ensures { result ≡ type_place image.now at }
{
    let start = name_end(image, at + 4) + 1;
    if is_plain(image, start) {
        return start + 2;
    }
    let place = limit_place(image, at);
    if image[place] == 0 {
        return place + 1;
    }
    place + 9
}

// The end of a field.
#[tactic(auto, using(parts::proofs::Laws::Items::field_parts_lem))]
pub(crate) fn field_end(image: &[u8], at: usize) -> usize
    requires { ItemHere Shape.Field image.now at }
    ensures { result ≡ item_end Shape.Field image.now at }
{
    type_end(image, field_type(image, at))
}
