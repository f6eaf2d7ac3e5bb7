// The clauses over two declarations of one kind, under the names of compat.rs; and their widths and tombstones.
#![tactic(auto)]

pub mod enums;
mod fields;
pub mod flags;
pub mod messages;
pub mod newtypes;
mod shared;
pub mod tombstones;
pub mod unions;
pub mod widths;
