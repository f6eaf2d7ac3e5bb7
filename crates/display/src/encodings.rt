// How encodings are shown.
ghost use Rattle.parts.specs.Promise.{coding_of};
ghost use Rattle.rules.specs.Text.{show_encoding};
ghost use Rattle.text.specs.Writers.{Adds};
ghost use Rattle.display.specs.Display.{repeated};

use crate::words::put_coding;
use parts::Encoding;
use text::Writer;

// A text so many times.
#[tactic(auto, using(text::proofs::Writers::after_after, crate::proofs::Laws::Texts::repeating))]
fn put_times(w: &mut Writer<'_>, s: &[u8], times: usize)
    ensures { Adds w.old (repeated times s.now) w.new }
{
    for _ in 0..times {
        w.text(s);
    }
}

// `delta(varint)`: the base inside of its deltas.
#[tactic(auto, using(text::proofs::Writers::after_after, crate::proofs::Laws::Texts::encoding_text), unfolding(image::specs::Words::bytes))]
pub fn encoding_display(w: &mut Writer<'_>, e: Encoding)
    ensures { Adds w.old (show_encoding (coding_of e)) w.new }
{
    put_times(w, b"delta(", e.deltas);
    put_coding(w, e.base);
    put_times(w, b")", e.deltas);
}
