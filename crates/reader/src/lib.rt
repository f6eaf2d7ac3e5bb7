// The reader of whole images: contents, bodies, and the answer. What is accepted and which refusal is given first: document 01, as the
// crate `image` says it.
#![tactic(auto)]

mod bodies;
pub mod contents;

ghost use Rattle.std.specs.Prelude.{◌≡◌};
ghost use Rattle.image.specs.Image.{read_image};
ghost use Rattle.reader.specs.Answer.{refused_by, refusal_in};

use image::refusals::Refusal;

// Whether an image is accepted, or the first refusal that document 01's order meets.
pub fn read_image(image: &[u8]) -> Result<(), Refusal>
    ensures { refused_by result ≡ refusal_in (read_image image.now) }
{
    match contents::read_whole(image) {
        Ok(_) => Ok(()),
        Err(refusal) => Err(refusal),
    }
}
