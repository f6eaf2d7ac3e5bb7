// The numbers that a body strikes off, where a format stores them.
ghost use Rattle.std.specs.Prelude.{◌≡◌};
ghost use Rattle.image.specs.Numbers.{format_number};
ghost use Rattle.image.specs.Parse.{number_at};
ghost use Rattle.image.specs.Tombstones.{tombstones_at};
ghost use Rattle.image.specs.Reads.{read_of, skip, Carries};

use crate::Read;
use crate::counted::{read_counted, read_items};
use crate::formats::Format;
use crate::numbers::read_number;
use crate::positions::Position;

// A number that is struck off.
fn read_tombstone<P: Position>(s: &[u8], at: P) -> Read
    ensures { read_of result ≡ skip (number_at 4 s.now (P.place_of at)) }
{
    read_number(s, at.place(), 4)
}

// Those of a union's variant, with positions held as those of its fields are.
pub(crate) fn read_struck<P: Position>(format: Format, s: &[u8], at: P) -> Read
    requires { Carries P.carries s.now }
    ensures { read_of result ≡ skip (tombstones_at (format_number format) s.now (P.place_of at)) }
{
    if !format.has_tombstones() {
        return Ok(at.place());
    }
    read_counted(s, at, read_tombstone)
}

// Those that close a body.
pub fn read_tombstones(format: Format, s: &[u8], at: usize) -> Read
    ensures { read_of result ≡ skip (tombstones_at (format_number format) s.now at) }
{
    if !format.has_tombstones() {
        return Ok(at);
    }
    read_items(s, at, read_tombstone, read_tombstone)
}
