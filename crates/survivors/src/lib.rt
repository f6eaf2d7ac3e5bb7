// The searches of the comparer: what stands under a key, and what stands under the next key, among the declarations of an accepted image
// and among the numbered items of a run, these by place and as values. What calls them does not depend on how they search.
#![tactic(auto)]

pub mod decls;
pub mod items;
mod nearest;
pub mod standing;
