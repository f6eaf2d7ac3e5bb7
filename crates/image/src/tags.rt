// The tags of types.
ghost use Rattle.std.specs.Prelude.{◌≡◌, ◌≤◌};
ghost use Rattle.image.specs.Codes.{number, bits_tag};
ghost use Rattle.image.specs.Numbers.{tag_number, IsTag};

use crate::refusals::Refusal;

// A tag, with its number in an image. From `Optional` to `Mat4` they have inner types.
#[derive(Clone, Copy, PartialEq, Eq)]
pub enum Tag {
    Primitive = 0,
    SubByte = 1,
    Semantic = 2,
    Named = 3,
    Optional = 4,
    Array = 5,
    FixedArray = 6,
    Set = 7,
    Map = 8,
    Result = 9,
    Vec2 = 10,
    Vec3 = 11,
    Vec4 = 12,
    Quat = 13,
    Mat3 = 14,
    Mat4 = 15,
    Bits = 16,
}

impl Tag {
    // The tag of a number that is known to be one.
    pub fn of(byte: u8) -> Tag
        requires { byte ≤ number bits_tag }
        ensures { tag_number result ≡ byte }
    {
        match byte {
            0 => Tag::Primitive,
            1 => Tag::SubByte,
            2 => Tag::Semantic,
            3 => Tag::Named,
            4 => Tag::Optional,
            5 => Tag::Array,
            6 => Tag::FixedArray,
            7 => Tag::Set,
            8 => Tag::Map,
            9 => Tag::Result,
            10 => Tag::Vec2,
            11 => Tag::Vec3,
            12 => Tag::Vec4,
            13 => Tag::Quat,
            14 => Tag::Mat3,
            15 => Tag::Mat4,
            16 => Tag::Bits,
            _ => unreachable!(),
        }
    }
}

impl TryFrom<u8> for Tag {
    type Error = Refusal;

    ghost try_from_gives = { IsTag };

    fn try_from(byte: u8) -> Result<Tag, Refusal> {
        if 16 < byte {
            return Err(Refusal::Code);
        }
        Ok(Tag::of(byte))
    }
}
