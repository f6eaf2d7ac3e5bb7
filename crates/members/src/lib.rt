// The members of declarations in an accepted image: items (fields, variants, bits, the numbers that are struck off) and the parts of a field;
// and the places of items in any bytes. The promise that they rest on is that of `parts`.
#![tactic(auto)]

pub mod bodies;
pub mod fields;
pub mod handles;
pub mod items;
pub mod kinds;
pub mod places;
