// Text after text into a lent buffer, as far as it reaches.
#![tactic(auto)]

ghost use Rattle.std.specs.Prelude.{◌≡◌, [], ◌∷◌, ◌+◌, ◌≤◌, length};
ghost use Rattle.text.specs.Decimal.{decimal};
ghost use Rattle.text.specs.Text.{put};
ghost use Rattle.text.specs.Writers.{Adds, buffer_of};

use itoa::write_digits;

// Text into its place.
fn copy(out: &mut [u8], at: usize, s: &[u8])
    requires { at + length s.now ≤ length out.old }
    ensures { out.new ≡ put out.old at s.now }
{
    let end = at + s.len();
    out[at..end].copy_from_slice(s);
}

// Text after text into a buffer, as far as the buffer reaches: what is past its end is only counted, so that an empty buffer measures.
// `at` is the place after the text so far.
#[derive(Drop)]
pub struct Writer<'a> {
    out: &'a mut [u8],
    pub at: usize,
}

impl Writer<'_> {
    // From the start of a buffer.
    pub fn new(out: &mut [u8]) -> Writer<'_>
        ensures same_reference { (buffer_of result).ghost_name ≡ out.entry.ghost_name }
        ensures bytes { (buffer_of result).now ≡ out.old }
        ensures start { result.at ≡ 0 }
    {
        Writer { out, at: 0 }
    }

    // A byte after the text so far.
    pub fn byte(&mut self, b: u8)
        ensures { Adds self.old (b ∷ []) self.new }
    {
        let at = self.at;
        if at < self.out.len() {
            self.out[at] = b;
        }
        self.at = at.saturating_add(1);
    }

    // A text after the text so far.
    pub fn text(&mut self, s: &[u8])
        ensures { Adds self.old s.now self.new }
    {
        let at = self.at;
        let len = self.out.len();
        if at < len {
            let reached = s.len().min(len - at);
            copy(self.out, at, &s[..reached]);
        }
        self.at = at.saturating_add(s.len());
    }

    // A number in decimal after the text so far. Put into its callers, so that the listing's measure, which knows its buffer empty,
    // makes no digits.
    #[inline(always)]
    #[tactic(auto, using(crate::proofs::Numbers::showing))]
    pub fn number(&mut self, n: u64)
        ensures { Adds self.old (decimal n) self.new }
    {
        let mut bytes = [0u8; 20];
        let from = write_digits(n, &mut bytes, 20);
        self.text(&bytes[from..]);
    }
}
