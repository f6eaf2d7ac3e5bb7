// Numbers that hold a position of a slice: narrow ones, for the slices whose every position they carry, and wide ones.
ghost use Rattle.std.specs.Prelude.{◌≡◌, ℕ, ◌^◌, ◌<◌};

pub(crate) trait Position: Copy {
    ghost place_of: { Self → ℕ };

    // Which positions it carries.
    ghost carries: { ℕ → Type 0 };

    fn hold(at: usize) -> Self
        requires { carries at }
        ensures { place_of result ≡ at };

    fn place(self) -> usize
        ensures { result ≡ place_of self };
}

impl Position for u16 {
    ghost place_of = { λ p. p };

    ghost carries = { λ n. n < 2 ^ 16 };

    fn hold(at: usize) -> u16 {
        at as u16
    }

    fn place(self) -> usize {
        self as usize
    }
}

impl Position for usize {
    ghost place_of = { λ p. p };

    ghost carries = { λ _. Unit {0} };

    fn hold(at: usize) -> usize {
        at
    }

    fn place(self) -> usize {
        self
    }
}
