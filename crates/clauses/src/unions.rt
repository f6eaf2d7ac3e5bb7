// 7. Unions. Fields of a variant that was kept are compared under the union's name and the old variant's.
ghost use Rattle.std.specs.Prelude.{◌≡◌};
ghost use Rattle.survivors.specs.Answers.{Among};
ghost use Rattle.lines.specs.Reports.{Reports};
ghost use Rattle.items.specs.Items.{kept_at};
ghost use Rattle.items.specs.declared.Owner.{Owner};
ghost use Rattle.clauses.specs.Pairs.{of_unions, of_variants};

use crate::fields::compare_field_sets;
use crate::tombstones::compare_last_in;
use details::Scope;
use items::pairs::Pair;
use items::unmatched::unmatched_items;
use items::{Owner, Side};
use lines::Report;
use members::handles::{Item, Variant};
use members::kinds::Union;
use survivors::standing::{standing_item, standing_items};

// Two variants under one ordinal, of the union of a name: their fields, and last their tombstones.
fn compare_variants<'a>(r: &mut Report<'_>, union: &'a [u8], old: Variant<'a>, new: Variant<'a>)
    ensures { Reports r.old (of_variants r.old.reading union.now old.entry new.entry) r.new }
{
    let scope = Scope::Variant(union, old.name());
    compare_field_sets(r, scope, old.fields(), new.fields());
    compare_last_in(r, scope, old, new);
}

// An old variant of the union of a name: compared, if a new one stands under its ordinal too.
fn kept_variant<'a>(r: &mut Report<'_>, union: &'a [u8], pair: Pair<'a>, item: Item<'a>)
    requires { (pair.of ≡ Owner.Union union) × Among pair.old item }
    ensures { Reports r.old (kept_at r.old.reading pair.entry item.entry) r.new }
{
    let Some(found) = standing_item(pair.new, item.ordinal()) else {
        return;
    };
    compare_variants(r, union, Variant { item }, Variant { item: found });
}

// Two unions: variants removed, added, kept.
#[tactic(auto, using(items::proofs::Walks::keeping))]
pub fn compare_unions(r: &mut Report<'_>, old: Union<'_>, new: Union<'_>)
    ensures { Reports r.old (of_unions r.old.reading old.entry.decl new.entry.decl) r.new }
{
    let was = old.decl;
    let name = was.name();
    let variants = old.variants();
    let pair = Pair::new(Owner::Union(name), variants, new.variants());
    unmatched_items(r, Side::Old, pair);
    unmatched_items(r, Side::New, pair);
    for variant in standing_items(variants) {
        kept_variant(r, name, pair, variant);
    }
}
