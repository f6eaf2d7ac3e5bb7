// The entries of an accepted image that are reached through named nodes: what the verdict with imports compares besides the survivors.
#![tactic(auto)]

mod decls;
mod fields;
pub mod follow;
mod nodes;
mod standing;

// An image has no more entries: "N or M over 512" is refused.
pub const MOST: usize = 512;

// A mark for each of the first `count` ids, set if it is reached.
#[derive(Clone, Copy)]
pub struct Reached {
    pub marks: [bool; MOST],
    pub count: usize,
}
