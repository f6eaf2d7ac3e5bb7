// The kinds of declarations.
ghost use Rattle.std.specs.Prelude.{◌≡◌, ◌≤◌};
ghost use Rattle.image.specs.Codes.{number, impl_kind};
ghost use Rattle.image.specs.Numbers.{kind_number, IsKind};

use crate::refusals::Refusal;

// A kind, with its number in an image. `Alias` is the generic alias.
#[derive(Clone, Copy, PartialEq, Eq)]
pub enum Kind {
    Message = 0,
    Enum = 1,
    Flags = 2,
    Union = 3,
    Newtype = 4,
    Config = 5,
    Alias = 6,
    Trait = 7,
    Impl = 8,
}

impl Kind {
    // The kind of a number that is known to be one.
    pub fn of(byte: u8) -> Kind
        requires { byte ≤ number impl_kind }
        ensures { kind_number result ≡ byte }
    {
        match byte {
            0 => Kind::Message,
            1 => Kind::Enum,
            2 => Kind::Flags,
            3 => Kind::Union,
            4 => Kind::Newtype,
            5 => Kind::Config,
            6 => Kind::Alias,
            7 => Kind::Trait,
            8 => Kind::Impl,
            _ => unreachable!(),
        }
    }
}

impl TryFrom<u8> for Kind {
    type Error = Refusal;

    ghost try_from_gives = { IsKind };

    fn try_from(byte: u8) -> Result<Kind, Refusal> {
        if 8 < byte {
            return Err(Refusal::Kind);
        }
        Ok(Kind::of(byte))
    }
}
