// A reader over the body of an entry: a struct that holds the lent slice, and the position of the declaration in it.
ghost use Rattle.std.specs.Prelude.{◌≡◌};
ghost use Rattle.parts.specs.Numbers.{kind_number};
ghost use Rattle.parts.specs.Promise.{StartHere, start_kind, start_name};
ghost use Rattle.text.specs.Writers.{Adds};
ghost use Rattle.listing.specs.Listing.{line_of};

use crate::line::put_line;
use parts::kinds::Kind;
use parts::starts::{start_kind, start_name};
use text::Writer;

// A body, and where its declaration stands in it.
#[derive(Clone, Copy)]
pub struct Reader<'a> {
    pub src: &'a [u8],
    pub at: usize,
}

impl<'a> Reader<'a> {
    // At the start of a body.
    pub fn new(src: &'a [u8]) -> Reader<'a>
        ensures { (result.src ≡ src.entry) × (result.at ≡ 0) }
    {
        Reader { src, at: 0 }
    }

    // The kind of the declaration that starts at the position.
    pub fn kind(self) -> Kind
        requires { StartHere self.src.now self.at }
        ensures { kind_number result ≡ start_kind self.entry.src.now self.entry.at }
    {
        start_kind(self.src, self.at)
    }

    // Its name.
    pub fn name(self) -> &'a [u8]
        requires { StartHere self.src.now self.at }
        ensures { result.now ≡ start_name self.entry.src.now self.entry.at }
    {
        start_name(self.src, self.at)
    }
}

// The line of a body's declaration. Put into its caller: see `put_listing`.
#[inline(always)]
pub fn put_entry(w: &mut Writer<'_>, id: usize, body: &[u8])
    requires { StartHere body.now 0 }
    ensures { Adds w.old (line_of id (start_kind body.now 0) (start_name body.now 0)) w.new }
{
    let r = Reader::new(body);
    put_line(w, id, r.kind(), r.name());
}
