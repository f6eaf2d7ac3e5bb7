// The formats of an image, and what each of them stores.
ghost use Rattle.std.specs.Prelude.{◌≡◌, true};
ghost use Rattle.image.specs.Formats.{known, has_widths, has_tombstones};
ghost use Rattle.image.specs.Numbers.{format_number, IsFormat};

use crate::refusals::Refusal;

// A format, with its number in the head.
#[derive(Clone, Copy)]
pub enum Format {
    One = 1,
    Two = 2,
    Three = 3,
}

impl Format {
    // The format of a number that is known to be one.
    #[tactic(auto, unfolding(crate::specs::Formats::known))]
    pub fn of(number: usize) -> Format
        requires { known number ≡ true }
        ensures { format_number result ≡ number }
    {
        match number {
            1 => Format::One,
            2 => Format::Two,
            3 => Format::Three,
            _ => unreachable!(),
        }
    }

    // Whether images of the format store the widths of enums and flags.
    #[tactic(auto, unfolding(crate::specs::Formats::has_widths))]
    pub fn has_widths(self) -> bool
        ensures { result ≡ has_widths (format_number self) }
    {
        match self {
            Format::One => false,
            Format::Two | Format::Three => true,
        }
    }

    // Whether they store the numbers that are struck off.
    #[tactic(auto, unfolding(crate::specs::Formats::has_tombstones))]
    pub fn has_tombstones(self) -> bool
        ensures { result ≡ has_tombstones (format_number self) }
    {
        match self {
            Format::One | Format::Two => false,
            Format::Three => true,
        }
    }
}

impl TryFrom<usize> for Format {
    type Error = Refusal;

    ghost try_from_gives = { IsFormat };

    #[tactic(auto, unfolding(crate::specs::Formats::known))]
    fn try_from(number: usize) -> Result<Format, Refusal> {
        match number {
            1..=3 => Ok(Format::of(number)),
            _ => Err(Refusal::Format),
        }
    }
}
