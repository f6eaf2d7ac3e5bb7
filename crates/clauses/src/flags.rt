// 6. Flags.
ghost use Rattle.lines.specs.Reports.{Reports};
ghost use Rattle.clauses.specs.Pairs.{of_flags};

use items::pairs::Pair;
use items::unmatched::unmatched_items;
use items::{Owner, Side};
use lines::Report;
use members::kinds::Flags;

// Two flags: bits removed, bits added.
pub fn compare_flags(r: &mut Report<'_>, old: Flags<'_>, new: Flags<'_>)
    ensures { Reports r.old (of_flags r.old.reading old.entry.decl new.entry.decl) r.new }
{
    let was = old.decl;
    let pair = Pair::new(Owner::Flags(was.name()), old.bits(), new.bits());
    unmatched_items(r, Side::Old, pair);
    unmatched_items(r, Side::New, pair);
}
