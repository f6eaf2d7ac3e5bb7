// How names that stand one after the other are shown.
ghost use Rattle.parts.specs.Handles.{names_of};
ghost use Rattle.rules.specs.Text.{joined};
ghost use Rattle.text.specs.Writers.{Adds};

use parts::handles::Names;
use text::Writer;

// The names, with a text between each two.
#[tactic(auto, using(crate::proofs::Laws::Names::naming))]
pub fn names_display(w: &mut Writer<'_>, names: Names<'_>, between: &[u8])
    ensures { Adds w.old (joined between.now (names_of names.entry)) w.new }
{
    let mut names = names;
    if let Some(first) = names.next() {
        w.text(first);
        for name in names {
            w.text(between);
            w.text(name);
        }
    }
}
