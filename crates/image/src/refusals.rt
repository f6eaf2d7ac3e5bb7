// What images are refused by.
ghost use Rattle.std.specs.Prelude.{◌≡◌};
ghost use Rattle.image.specs.Numbers.{refusal_number};

// A refusal, with its number in the table of refusals.
#[derive(Clone, Copy)]
pub enum Refusal {
    Long = 1,
    ShortHead = 2,
    Format = 3,
    Crowded = 4,
    Contents = 5,
    Kind = 6,
    Name = 7,
    Body = 8,
    Code = 9,
    Deep = 10,
    AliasPair = 11,
    Full = 12,
    Mixed = 16,
}

impl Refusal {
    pub fn number(self) -> u8
        ensures { result ≡ refusal_number self }
    {
        self as u8
    }
}
