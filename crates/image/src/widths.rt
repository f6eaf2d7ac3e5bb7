// The wire widths of enums and flags, where a format stores them.
ghost use Rattle.std.specs.Prelude.{◌≡◌};
ghost use Rattle.image.specs.Numbers.{format_number};
ghost use Rattle.image.specs.Reads.{read_of, skip};
ghost use Rattle.image.specs.Widths.{wire_bytes, wire_bits_at, wire_bytes_at, width_at};

use crate::Read;
use crate::formats::Format;
use crate::numbers::read_byte;
use crate::refusals::Refusal;

// The wire bits of an enum: any byte.
#[tactic(auto, using(crate::proofs::Laws::Widths::width_none, crate::proofs::Laws::Widths::width_read), unfolding(crate::specs::Widths::wire_bits_at))]
pub fn read_wire_bits(format: Format, s: &[u8], at: usize) -> Read
    ensures { read_of result ≡ skip (width_at (format_number format) wire_bits_at s.now at) }
{
    if !format.has_widths() {
        return Ok(at);
    }
    read_byte(s, at)
}

#[tactic(auto, unfolding(crate::specs::Widths::wire_bytes))]
fn is_wire_bytes(b: u8) -> bool
    ensures { result ≡ wire_bytes b }
{
    matches!(b, 1 | 2 | 4 | 8)
}

// The wire bytes of flags, judged on reading them.
pub fn read_wire_bytes(format: Format, s: &[u8], at: usize) -> Read
    ensures { read_of result ≡ skip (width_at (format_number format) wire_bytes_at s.now at) }
{
    if !format.has_widths() {
        return Ok(at);
    }
    let step = read_byte(s, at);
    let Ok(_) = step else {
        return step;
    };
    if !is_wire_bytes(s[at]) {
        return Err(Refusal::Code);
    }
    step
}
