// The sides of a refusal.
ghost use Rattle.std.specs.Prelude.{◌≡◌};
ghost use Rattle.image.specs.Numbers.{side_number};

// Which image a refusal is of, or both, with the number that a call gives.
#[derive(Clone, Copy)]
pub enum Side {
    Old = 1,
    New = 2,
    Both = 3,
}

impl Side {
    pub fn number(self) -> u8
        ensures { result ≡ side_number self }
    {
        self as u8
    }
}
