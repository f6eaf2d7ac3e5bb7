// The items of an old declaration, or variant, and those of the new one.
ghost use Rattle.std.specs.Prelude.{◌≡◌};
ghost use Rattle.items.specs.Owners.{shape_of};

use crate::Owner;
use members::handles::Items;

// Both are of the shape that their owner's items have.
#[derive(Clone, Copy)]
pub struct Pair<'a> {
    pub of: Owner<'a>,
    pub old: Items<'a>,
    pub new: Items<'a>,
    pub ghost old_shape: { old.shape ≡ shape_of of },
    pub ghost new_shape: { new.shape ≡ shape_of of },
}

impl<'a> Pair<'a> {
    pub fn new(of: Owner<'a>, old: Items<'a>, new: Items<'a>) -> Pair<'a>
        requires { (old.shape ≡ shape_of of) × (new.shape ≡ shape_of of) }
        ensures of { result.of ≡ of.entry }
        ensures old { result.old ≡ old.entry }
        ensures new { result.new ≡ new.entry }
    {
        Pair { of, old, new }
    }
}
