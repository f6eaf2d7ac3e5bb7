// Types: a label, and the inner types that its tag has.
ghost use Rattle.std.specs.Prelude.{◌≡◌, ◌≤◌, length};
ghost use Rattle.image.specs.Codes.{number, sub_byte_tag, bits_tag};
ghost use Rattle.image.specs.Numbers.{tag_number};
ghost use Rattle.image.specs.Types.{sub_byte, bits, after_tag, label_of, inner_types, type_of, type_at};
ghost use Rattle.image.specs.Reads.{read_of, skip};

use crate::Read;
use crate::names::read_names;
use crate::numbers::{read_byte, read_code, read_number};
use crate::refusals::Refusal;
use crate::tags::Tag;

// Whether a sub-byte is signed, and its bits.
fn read_sub_byte(s: &[u8], at: usize) -> Read
    ensures { read_of result ≡ skip (after_tag (number sub_byte_tag) sub_byte s.now at) }
{
    let step = read_code(s, at, 0, 1);
    let Ok(next) = step else {
        return step;
    };
    read_code(s, next, 1, 64)
}

// A count and as many names.
fn read_bits(s: &[u8], at: usize) -> Read
    ensures { read_of result ≡ skip (after_tag (number bits_tag) bits s.now at) }
{
    let step = read_byte(s, at);
    let Ok(next) = step else {
        return step;
    };
    read_names(s, next, s[at] as usize, Refusal::Body)
}

// The label of a type: its tag, and what stands between the tag and the inner types.
fn read_label(s: &[u8]) -> Read
    ensures { read_of result ≡ skip (label_of s.now) }
{
    let step = read_byte(s, 0);
    let Ok(next) = step else {
        return step;
    };
    match Tag::try_from(s[0])? {
        Tag::Primitive => read_code(s, next, 0, 13),
        Tag::SubByte => read_sub_byte(s, next),
        Tag::Semantic => read_code(s, next, 0, 5),
        Tag::Named => read_number(s, next, 4),
        Tag::FixedArray => read_number(s, next, 8),
        Tag::Bits => read_bits(s, next),
        _ => step,
    }
}

// How many inner types a tag has.
#[tactic(auto, unfolding(crate::specs::Types::inner_types))]
pub fn inner_types(tag: Tag) -> usize
    ensures { result ≡ inner_types (tag_number tag) }
{
    match tag {
        Tag::Primitive | Tag::SubByte | Tag::Semantic | Tag::Named | Tag::Bits => 0,
        Tag::Map | Tag::Result => 2,
        _ => 1,
    }
}

// The type at the start of a part, of at most `left` nodes on a path.
fn read_type(s: &[u8], left: usize) -> Read
    ensures { read_of result ≡ skip (type_of left s.now) }
{
    if left == 0 {
        return Err(Refusal::Deep);
    }
    let head = read_label(s);
    let Ok(first) = head else {
        return head;
    };
    let inner = inner_types(Tag::of(s[0]));
    if inner == 0 {
        return head;
    }
    let one = read_type(&s[first..], left - 1);
    let Ok(used) = one else {
        return one;
    };
    let second = first + used;
    if inner == 1 {
        return Ok(second);
    }
    let two = read_type(&s[second..], left - 1);
    let Ok(more) = two else {
        return two;
    };
    Ok(second + more)
}

// A whole type, at a position of a body.
pub fn read_type_at(s: &[u8], at: usize) -> Read
    requires { at ≤ length s.now }
    ensures { read_of result ≡ skip (type_at s.now at) }
{
    let step = read_type(&s[at..], 32);
    let Ok(used) = step else {
        return step;
    };
    Ok(at + used)
}
