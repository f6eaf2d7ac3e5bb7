// Words by their code, tag or kind. Where there are many they stand in one text, a space after each: a table of references to words would be memory
// that is written to when the library is loaded.
ghost use Rattle.std.specs.Prelude.{[], ◌∷◌, ◌≡◌};
ghost use Rattle.image.specs.Words.{kind_word};
ghost use Rattle.parts.specs.Numbers.{kind_number, tag_number};
ghost use Rattle.parts.specs.Promise.{coding_number};
ghost use Rattle.rules.specs.Text.{word, primitive_word, semantic_word, opening};
ghost use Rattle.text.specs.Writers.{Adds};
ghost use Rattle.display.specs.Words.{word_in};

use parts::Coding;
use parts::kinds::Kind;
use parts::tags::Tag;
use text::Writer;

// The word with a number. What is past the last word is empty.
#[tactic(auto, using(text::proofs::Writers::after_after, crate::proofs::Laws::Words::scanning))]
pub fn put_word(w: &mut Writer<'_>, words: &[u8], number: usize)
    ensures { Adds w.old (word_in words.now number) w.new }
{
    let mut left = number;
    for byte in words {
        if *byte == b' ' {
            if left == 0 {
                return;
            }
            left -= 1;
        } else if left == 0 {
            w.byte(*byte);
        }
    }
}

// A primitive type, by its code.
pub(crate) fn put_primitive(w: &mut Writer<'_>, code: u8)
    ensures { Adds w.old (primitive_word code) w.new }
{
    let words = b"bool u8 u16 u32 u64 i8 i16 i32 i64 f32 f64 fixed32 fixed64 void ";
    put_word(w, words, code as usize);
}

// A semantic type, by its code.
pub(crate) fn put_semantic(w: &mut Writer<'_>, code: u8)
    ensures { Adds w.old (semantic_word code) w.new }
{
    put_word(w, b"string bytes rgb uuid timestamp hash ", code as usize);
}

// The letter of a sub-byte, by its sign.
pub(crate) fn put_sign(w: &mut Writer<'_>, sign: u8)
    ensures { Adds w.old (word ("u" ∷ "i" ∷ []) sign) w.new }
{
    put_word(w, b"u i ", sign as usize);
}

// A coding, each by its own arm.
#[tactic(auto, using(crate::proofs::Laws::Words::coding_told), unfolding(image::specs::Words::bytes))]
pub(crate) fn put_coding(w: &mut Writer<'_>, coding: Coding)
    ensures { Adds w.old (word ("default" ∷ "varint" ∷ "zigzag" ∷ []) (coding_number coding)) w.new }
{
    match coding {
        Coding::Default => w.text(b"default"),
        Coding::Varint => w.text(b"varint"),
        Coding::Zigzag => w.text(b"zigzag"),
    }
}

// A kind of declaration, as `decl_kind_name` spells it, each by its own arm. Put into its callers, for the listing's measure: see `number` of a writer.
#[inline(always)]
#[tactic(auto, using(crate::proofs::Laws::Words::kind_told), unfolding(image::specs::Words::bytes))]
pub fn put_kind(w: &mut Writer<'_>, kind: Kind)
    ensures { Adds w.old (kind_word (kind_number kind)) w.new }
{
    match kind {
        Kind::Message => w.text(b"message"),
        Kind::Enum => w.text(b"enum"),
        Kind::Flags => w.text(b"flags"),
        Kind::Union => w.text(b"union"),
        Kind::Newtype => w.text(b"newtype"),
        Kind::Config => w.text(b"config"),
        Kind::Alias => w.text(b"generic_alias"),
        Kind::Trait => w.text(b"trait"),
        Kind::Impl => w.text(b"impl"),
    }
}

// A tag's number.
fn number_of(tag: Tag) -> usize
    ensures { result ≡ tag_number tag }
{
    tag as usize
}

// What stands before inner types. The four tags before Optional have no opening: empty words.
pub(crate) fn put_opening(w: &mut Writer<'_>, tag: Tag)
    ensures { Adds w.old (opening (tag_number tag)) w.new }
{
    let words =
        b"    optional< array< array< set< map< result< vec2< vec3< vec4< quat< mat3< mat4< ";
    put_word(w, words, number_of(tag));
}
