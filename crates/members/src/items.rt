// Items of declarations: fields, variants and bits, and the numbers that are struck off. Each starts with its ordinal, and all but numbers go on
// with their name, so that these are found without its shape.
ghost use Rattle.std.specs.Prelude.{◌≡◌, ◌+◌, ◌≤◌, length};
ghost use Rattle.image.specs.Codes.{number, union_kind};
ghost use Rattle.parts.specs.Promise.{DeclHere, decl_in, items_in, ItemHere, item_end, ItemsHere, items_end, ordinal_in, item_name};
ghost use Rattle.parts.specs.Promise.{items_at, Closed, tombstones_end, tombstone_items, variant_items};

use crate::fields::field_end;
use image::numbers::{u16_at, u32_at};
use parts::decls::{stores_tombstones, stores_width, width_place};
use parts::names::{name_at, name_end};
use parts::{Run, Shape};

// The ordinal of an item; of flags it is the bit.
#[tactic(auto, using(parts::proofs::Laws::Items::numbers), unfolding(parts::specs::Promise::ordinal_in))]
pub fn ordinal_at(image: &[u8], at: usize) -> u32
    requires { ItemHere Shape.Number image.now at }
    ensures { result ≡ ordinal_in image.now at }
{
    u32_at(image, at)
}

// The bytes of the name of an item.
#[tactic(auto, using(parts::proofs::Laws::Items::bares))]
pub fn item_name(image: &[u8], at: usize) -> &[u8]
    requires { ItemHere Shape.Bare image.now at }
    ensures { result.now ≡ item_name image.now at }
{
    name_at(image, at + 4)
}

// A count at a place, and the items after it.
#[tactic(auto, unfolding(parts::specs::Promise::items_at))]
fn items_at(image: &[u8], at: usize) -> Run
    requires { at + 2 ≤ length image.now }
    ensures { result ≡ items_at image.now at }
{
    Run {
        start: at + 2,
        count: u16_at(image, at),
    }
}

// The items of a message, an enum, flags or a union.
#[tactic(auto, using(parts::proofs::Laws::Counted::counts))]
pub fn decl_items(image: &[u8], at: usize) -> Run
    requires { DeclHere image.now at × ((decl_in image.now at).kind ≤ number union_kind) }
    ensures { result ≡ items_in image.now at }
{
    let place = width_place(image, at);
    if stores_width(image, at) {
        return items_at(image, place + 1);
    }
    items_at(image, place)
}

// The fields of a union's variant.
#[tactic(auto, using(parts::proofs::Laws::Items::variants), unfolding(parts::specs::Promise::variant_items))]
pub fn variant_items(image: &[u8], at: usize) -> Run
    requires { ItemHere Shape.Variant image.now at }
    ensures { result ≡ variant_items image.now at }
{
    items_at(image, name_end(image, at + 4))
}

// The end of so many fields. Kept apart from the ends of items, which are short and asked far more often.
#[inline(never)]
#[tactic(auto, using(parts::proofs::Laws::Items::runs))]
fn fields_passed(image: &[u8], at: usize, count: usize) -> usize
    requires { ItemsHere Shape.Field image.now count at }
    ensures { result ≡ items_end Shape.Field image.now count at }
{
    let mut next = at;
    for _ in 0..count {
        next = field_end(image, next);
    }
    next
}

// The same: most variants have none.
#[tactic(auto, using(parts::proofs::Laws::Items::runs))]
fn fields_end(image: &[u8], at: usize, count: usize) -> usize
    requires { ItemsHere Shape.Field image.now count at }
    ensures { result ≡ items_end Shape.Field image.now count at }
{
    if count == 0 {
        return at;
    }
    fields_passed(image, at, count)
}

// The numbers that are struck off at a place.
#[tactic(auto, using(parts::proofs::Laws::Closed::closes), unfolding(parts::specs::Promise::tombstone_items))]
pub(crate) fn tombstone_items(image: &[u8], at: usize) -> Run
    requires closed { Closed image.now at }
    requires there { 2 ≤ length image.now }
    ensures { result ≡ tombstone_items image.now at }
{
    if stores_tombstones(image) {
        return items_at(image, at);
    }
    Run {
        start: at,
        count: 0,
    }
}

// Their end.
#[tactic(auto, using(parts::proofs::Laws::Closed::closes))]
fn tombstones_end(image: &[u8], at: usize) -> usize
    requires closed { Closed image.now at }
    requires there { 2 ≤ length image.now }
    ensures { result ≡ tombstones_end image.now at }
{
    if stores_tombstones(image) {
        return at + 2 + 4 * u16_at(image, at);
    }
    at
}

// The end of a union's variant.
#[tactic(auto, using(parts::proofs::Laws::Items::variants))]
fn variant_end(image: &[u8], at: usize) -> usize
    requires { ItemHere Shape.Variant image.now at }
    ensures { result ≡ item_end Shape.Variant image.now at }
{
    let fields = variant_items(image, at);
    let place = fields_end(image, fields.start, fields.count);
    tombstones_end(image, place)
}

// The end of a bare item.
#[tactic(auto, using(parts::proofs::Laws::Items::bares))]
fn bare_end(image: &[u8], at: usize) -> usize
    requires { ItemHere Shape.Bare image.now at }
    ensures { result ≡ item_end Shape.Bare image.now at }
{
    name_end(image, at + 4)
}

// The place after an item, where the next one starts.
#[tactic(auto, using(parts::proofs::Laws::Items::numbers))]
pub fn item_end(image: &[u8], shape: Shape, at: usize) -> usize
    requires { ItemHere shape image.now at }
    ensures { result ≡ item_end shape image.now at }
{
    match shape {
        Shape::Field => field_end(image, at),
        Shape::Bare => bare_end(image, at),
        Shape::Variant => variant_end(image, at),
        Shape::Number => at + 4,
    }
}

// The end of so many items.
#[tactic(auto, using(parts::proofs::Laws::Items::runs))]
pub(crate) fn items_end(image: &[u8], shape: Shape, at: usize, count: usize) -> usize
    requires { ItemsHere shape image.now count at }
    ensures { result ≡ items_end shape image.now count at }
{
    let mut next = at;
    for _ in 0..count {
        next = item_end(image, shape, next);
    }
    next
}
