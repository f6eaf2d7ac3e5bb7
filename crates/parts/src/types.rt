// Types at places of the image. A type is a label and the inner types after it: the first starts at the label's end, the second at the
// end of the first.
ghost use Rattle.std.specs.Prelude.{◌≡◌, ◌≤◌};
ghost use Rattle.image.specs.Codes.{number, sub_byte_tag, semantic_tag, named_tag, fixed_array_tag, bits_tag};
ghost use Rattle.image.specs.Numbers.{tag_number};
ghost use Rattle.parts.specs.Promise.{LabelHere, label_in, label_end, bits_in, TypeHere, type_end};

use crate::Run;
use crate::names::names_end;
use image::numbers::{u32_at, u64_at};
use image::tags::Tag;

#[tactic(auto, using(crate::proofs::Laws::Labels::labels))]
pub fn type_tag(image: &[u8], at: usize) -> Tag
    requires { LabelHere image.now at }
    ensures { tag_number result ≡ (label_in image.now at).tag }
{
    Tag::of(image[at])
}

// The code of a primitive or a semantic type; of a sub-byte, whether it is signed.
#[tactic(auto, using(crate::proofs::Laws::Labels::label_parts))]
pub fn type_code(image: &[u8], at: usize) -> u8
    requires { LabelHere image.now at × ((label_in image.now at).tag ≤ number semantic_tag) }
    ensures { result ≡ (label_in image.now at).first }
{
    image[at + 1]
}

// The bits of a sub-byte.
#[tactic(auto, using(crate::proofs::Laws::Labels::label_parts))]
pub fn type_bits(image: &[u8], at: usize) -> u8
    requires { LabelHere image.now at × ((label_in image.now at).tag ≡ number sub_byte_tag) }
    ensures { result ≡ (label_in image.now at).second }
{
    image[at + 2]
}

// The id of a named type.
#[tactic(auto, using(crate::proofs::Laws::Labels::label_parts))]
pub fn type_id(image: &[u8], at: usize) -> u32
    requires { LabelHere image.now at × ((label_in image.now at).tag ≡ number named_tag) }
    ensures { result ≡ (label_in image.now at).first }
{
    u32_at(image, at + 1)
}

// The size of a fixed array.
#[tactic(auto, using(crate::proofs::Laws::Labels::label_parts))]
pub fn type_size(image: &[u8], at: usize) -> u64
    requires { LabelHere image.now at × ((label_in image.now at).tag ≡ number fixed_array_tag) }
    ensures { result ≡ (label_in image.now at).first }
{
    u64_at(image, at + 1)
}

// The names of bits.
#[tactic(auto, using(crate::proofs::Laws::Labels::label_parts), unfolding(crate::specs::Promise::bits_in))]
pub fn bit_names(image: &[u8], at: usize) -> Run
    requires { LabelHere image.now at × ((label_in image.now at).tag ≡ number bits_tag) }
    ensures { result ≡ bits_in image.now at }
{
    Run {
        start: at + 2,
        count: image[at + 1] as usize,
    }
}

// Where the first inner type starts.
#[tactic(auto, using(crate::proofs::Laws::Labels::label_ends))]
pub fn label_end(image: &[u8], at: usize) -> usize
    requires { LabelHere image.now at }
    ensures { result ≡ label_end image.now at }
{
    match type_tag(image, at) {
        Tag::Primitive => at + 2,
        Tag::SubByte => at + 3,
        Tag::Semantic => at + 2,
        Tag::Named => at + 5,
        Tag::FixedArray => at + 9,
        Tag::Bits => names_end(image, at + 2, image[at + 1] as usize),
        _ => at + 1,
    }
}

// The end of a whole type: each node passed leaves its inner types to be passed.
#[tactic(auto, using(crate::proofs::Laws::Skips::types))]
pub fn type_end(image: &[u8], at: usize) -> usize
    requires { TypeHere 32 image.now at }
    ensures { result ≡ type_end image.now at }
{
    let mut next = at;
    let mut left: usize = 1;
    while 0 < left {
        let inner = image::types::inner_types(type_tag(image, next));
        next = label_end(image, next);
        left = left - 1 + inner;
    }
    next
}
