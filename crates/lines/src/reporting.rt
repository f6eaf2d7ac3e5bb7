// What stands on a line: a change, or what the report says last.
ghost use Rattle.std.specs.Prelude.{List, ℕ};
ghost use Rattle.rules.specs.Report.{change_line};
ghost use Rattle.text.specs.Writers.{Adds, Fills};
ghost use Rattle.lines.specs.Sites.{change_of};
ghost use Rattle.lines.specs.Last.{last_line_of};

use crate::Site;
use crate::words::{put_bump, put_change, put_compat};
use details::names::{put_declaration, put_field};
use details::put_detail;
use tally::Tally;
use text::Writer;

pub(crate) trait Line: Copy {
    ghost line_of: { Self → List ℕ };

    fn put(self, w: &mut Writer<'_>)
        ensures { Adds w.old (line_of self) w.new };
}

// The line of a change.
impl Line for Site<'_> {
    ghost line_of = { λ site. change_line (change_of site) };

    fn put(self, w: &mut Writer<'_>) {
        put_change(w, self.kind);
        w.byte(b';');
        put_bump(w, self.bump);
        w.byte(b';');
        put_declaration(w, self.scope);
        w.byte(b';');
        put_field(w, self.field);
        w.byte(b';');
        put_detail(w, self.detail);
        w.byte(b'\n');
    }
}

// The last line.
impl Line for Tally {
    ghost line_of = { last_line_of };

    fn put(self, w: &mut Writer<'_>) {
        let bump = self.bump;
        put_compat(w, bump.result());
        w.byte(b';');
        put_bump(w, bump);
        w.byte(b';');
        w.number(self.changes as u64);
        w.byte(b'\n');
    }
}

// A line from the start of a buffer: how long it is.
pub(crate) fn line_into<L: Line>(out: &mut [u8], line: L) -> usize
    ensures { Fills out.old (L.line_of line) result out.new }
{
    let mut w = Writer::new(out);
    line.put(&mut w);
    w.at
}
