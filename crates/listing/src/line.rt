// The line of an entry.
ghost use Rattle.parts.specs.Numbers.{kind_number};
ghost use Rattle.text.specs.Writers.{Adds};
ghost use Rattle.listing.specs.Listing.{line_of};

use display::words::put_kind;
use parts::kinds::Kind;
use text::Writer;

// "id, the kind's word .. and the name, parted by `;`. Each line ends with byte 10". Put into its caller: see `put_listing`.
#[inline(always)]
#[tactic(auto, using(text::proofs::Writers::after_after), unfolding(crate::specs::Listing::line_of, image::specs::Words::bytes))]
pub fn put_line(w: &mut Writer<'_>, id: usize, kind: Kind, name: &[u8])
    ensures { Adds w.old (line_of id (kind_number kind) name.now) w.new }
{
    w.number(id as u64);
    w.byte(b';');
    put_kind(w, kind);
    w.byte(b';');
    w.text(name);
    w.byte(b'\n');
}
