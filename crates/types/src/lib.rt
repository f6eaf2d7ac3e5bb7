// Types at places of accepted images, and the names in them and in namespaces: how alike two types are, and whether two names are equal.
#![tactic(auto)]

pub mod equal;
pub mod likeness;
pub mod names;
pub mod namespaces;
pub mod nodes;
