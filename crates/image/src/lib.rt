// The image formats, and the reads of their pieces: numbers, names, types, fields, widths, tombstones. Each read answers the position after
// what it read, or the first refusal, which the reads above it return unchanged. Refusals, sides, formats, kinds and tags have their types here.
#![tactic(auto)]

mod counted;
pub mod fields;
pub mod formats;
pub mod kinds;
pub mod names;
pub mod numbers;
mod positions;
pub mod refusals;
pub mod sides;
pub mod tags;
pub mod tombstones;
pub mod types;
pub mod widths;

use refusals::Refusal;

// What a read answers: the position after what was read, or why it is refused.
pub type Read = Result<usize, Refusal>;
