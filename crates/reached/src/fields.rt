// The named nodes in the compared types of fields and of union variants, marked: of one ordinal only what stands counts.
ghost use Rattle.std.specs.Prelude.{◌≡◌};
ghost use Rattle.parts.specs.declared.Shape.{Shape};
ghost use Rattle.reached.specs.Marks.{Ready, Marked};
ghost use Rattle.reached.specs.Named.{named_items};

use crate::nodes::mark_type;
use members::handles::{Field, Items, Variant};
use survivors::standing::standing_items;

// Fields, by rising ordinal.
#[tactic(auto, using(crate::proofs::Walks::field_walk))]
pub(crate) fn mark_fields(fields: Items<'_>, marks: &mut [bool])
    requires { Ready fields.image marks.old × (fields.shape ≡ Shape.Field) }
    ensures { Marked fields.entry.image marks.old (named_items Shape.Field fields.entry) marks.new }
{
    for item in standing_items(fields) {
        let field = Field { item };
        mark_type(field.ty(), marks);
    }
}

// The variants of a union, by rising ordinal.
#[tactic(auto, using(crate::proofs::Walks::variant_walk))]
pub(crate) fn mark_variants(variants: Items<'_>, marks: &mut [bool])
    requires { Ready variants.image marks.old × (variants.shape ≡ Shape.Variant) }
    ensures { Marked variants.entry.image marks.old (named_items Shape.Variant variants.entry) marks.new }
{
    for item in standing_items(variants) {
        let variant = Variant { item };
        mark_fields(variant.fields(), marks);
    }
}
