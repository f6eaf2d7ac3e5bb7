// Two runs of numbered items: what stands on one side only, by rising ordinal, in one walk for fields, variants and bits, removed or
// added.
#![tactic(auto)]

mod lone;
pub mod pairs;
pub mod unmatched;

ghost use Rattle.std.specs.Prelude.{◌≡◌};

use details::Scope;
use tally::Bump;

#[derive(Clone, Copy)]
pub enum Side {
    Old,
    New,
}

impl Side {
    ghost use Rattle.items.specs.Sides.{on, off};

    // What stands on it, of what the old image and the new one have.
    pub fn on<T: Copy>(self, old: T, new: T) -> T
        ensures { result ≡ on self old new }
    {
        match self {
            Side::Old => old,
            Side::New => new,
        }
    }

    // And on the other.
    pub fn off<T: Copy>(self, old: T, new: T) -> T
        ensures { result ≡ off self old new }
    {
        self.on(new, old)
    }
}

// Whose items are compared: the fields of what a scope names; the variants of an enum, by its name and the weight of an added one; the bits of
// flags and the variants of a union, by its name.
#[derive(Clone, Copy)]
pub enum Owner<'a> {
    Fields(Scope<'a>),
    Enum(&'a [u8], Bump),
    Flags(&'a [u8]),
    Union(&'a [u8]),
}
