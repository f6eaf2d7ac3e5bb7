// The parts of an accepted image: the entry of an id, and what stands in its declaration, down to the names and the types. Its items are
// read by the crate `members`. Each accessor takes the image and a place in it, which the promise (specs/Promise.antt, proofs/Promise.antt)
// shows to be well formed, and reads no more than it must: nothing is validated again.
#![tactic(auto)]

pub mod decls;
pub mod handles;
pub mod names;
pub mod starts;
pub mod types;

// The kinds, tags and formats that the accessors answer, and refusals and sides.
pub use image::{formats, kinds, refusals, sides, tags};

// The shape of an item: a field; a variant of an enum or a bit of flags; a variant of a union. Each starts with its ordinal and its name. Or a
// number that is struck off, which is an ordinal and nothing else.
#[derive(Clone, Copy)]
pub enum Shape {
    Field,
    Bare,
    Variant,
    Number,
}

// So many items, or names, one after the other.
#[derive(Clone, Copy)]
pub struct Run {
    pub start: usize,
    pub count: usize,
}

// What an encoding without its deltas is, with its code in an image.
#[derive(Clone, Copy, PartialEq, Eq)]
pub enum Coding {
    Default = 0,
    Varint = 1,
    Zigzag = 2,
}

// Deltas around a coding.
#[derive(Clone, Copy, PartialEq, Eq)]
pub struct Encoding {
    pub deltas: usize,
    pub base: Coding,
}
