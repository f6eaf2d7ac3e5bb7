// The walk over what stands on one side only.
ghost use Rattle.survivors.specs.Answers.{Among};
ghost use Rattle.lines.specs.Reports.{Reports};
ghost use Rattle.items.specs.Items.{unmatched_items, unmatched_at};
ghost use Rattle.items.specs.Sides.{on};

use crate::Side;
use crate::lone::lone;
use crate::pairs::Pair;
use lines::Report;
use members::handles::Item;
use survivors::items::has_item;
use survivors::standing::standing_items;

// An item of a side: a change, if none stands under its ordinal on the other.
#[tactic(auto, using(crate::proofs::Standing::lone_items))]
fn unmatched_item(r: &mut Report<'_>, side: Side, pair: Pair<'_>, item: Item<'_>)
    requires { Among (on side pair.old pair.new) item }
    ensures { Reports r.old (unmatched_at r.old.reading pair.entry side item.entry) r.new }
{
    if has_item(side.off(pair.old, pair.new).places(), item.ordinal()) {
        return;
    }
    r.emit(lone(pair.of, side, item));
}

// The items of a side that do not stand on the other.
#[tactic(auto, using(crate::proofs::Walks::unmatching))]
pub fn unmatched_items(r: &mut Report<'_>, side: Side, pair: Pair<'_>)
    ensures { Reports r.old (unmatched_items r.old.reading pair.entry side) r.new }
{
    for item in standing_items(side.on(pair.old, pair.new)) {
        unmatched_item(r, side, pair, item);
    }
}
