// The contents of one image: a line for each entry that is not empty, for all bytes.
#![tactic(auto)]

mod body;
mod line;

ghost use Rattle.std.specs.Prelude.{◌≡◌, ◌<◌, length};
ghost use Rattle.parts.specs.Handles.{schema_in};
ghost use Rattle.text.specs.Writers.{Adds};
ghost use Rattle.verdicts.specs.Verdicts.{answer_values, outcome_values};
ghost use Rattle.listing.specs.Listing.{entry_in, listing, outcome, Wrote};

use crate::body::put_entry;
use parts::handles::Image;
use parts::refusals::Refusal;
use parts::sides::Side;
use tally::Tally;
use text::Writer;
use verdicts::{Fault, Verdict};

// The line of an entry; nothing for an empty entry. Put into `put_listing`, as what makes up its line is put into it.
#[inline(always)]
fn put_one(w: &mut Writer<'_>, image: Image<'_>, id: usize)
    requires { id < length (schema_in image).registry }
    ensures { Adds w.old (entry_in image.entry.bytes.now id) w.new }
{
    let body = image.body(id);
    let count = body.count;
    if count == 0 {
        return;
    }
    let from = body.start;
    let end = from + count;
    put_entry(w, id, &image.bytes[from..end]);
}

// The listing of an image. Put into its callers, with what makes up its lines, so that their writers need no memory, which each byte that is written might
// change, and `measured`, whose buffer is empty, makes no text.
#[inline(always)]
fn put_listing(w: &mut Writer<'_>, image: Image<'_>)
    ensures { Adds w.old (listing (schema_in image.entry)) w.new }
{
    for id in 0..image.entry_count() {
        put_one(w, image, id);
    }
}

// 12, or the listing's length. Nothing is written.
fn measured(image: Image<'_>, room: usize) -> Result<Verdict, Fault>
    ensures { answer_values result ≡ outcome_values (outcome image.entry.bytes.now room) }
{
    let mut w = Writer::new(&mut []);
    put_listing(&mut w, image);
    let length = w.at;
    if room < length {
        return Err(Fault {
            refusal: Refusal::Full,
            side: Side::Old,
        });
    }
    Ok(Verdict::of_tally(Tally::empty(), length))
}

// What is said of an image and a buffer of so many bytes.
pub fn checked(bytes: &[u8], room: usize) -> Result<Verdict, Fault>
    ensures { answer_values result ≡ outcome_values (outcome bytes.now room) }
{
    match Image::read(bytes) {
        Ok(image) => measured(image, room),
        Err(refusal) => Err(Fault {
            refusal,
            side: Side::Old,
        }),
    }
}

// The listing of an image in a buffer: its length, 0 if it is too long.
fn write(image: Image<'_>, out: &mut [u8]) -> usize
    ensures { Wrote image.entry.bytes.now out.old result out.new }
{
    match measured(image, out.len()) {
        Ok(_) => {
            let mut w = Writer::new(out);
            put_listing(&mut w, image);
            w.at
        }
        Err(_) => 0,
    }
}

// The listing's length, 0 if refused; the listing stands at the start of the buffer.
pub fn write_listing(bytes: &[u8], out: &mut [u8]) -> usize
    ensures { Wrote bytes.now out.old result out.new }
{
    match Image::read(bytes) {
        Ok(image) => write(image, out),
        Err(_) => 0,
    }
}
