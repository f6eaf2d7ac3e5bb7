// A count and as many items, each of which a given function reads.
ghost use Rattle.std.specs.Prelude.{◌≡◌, ℕ, ◌^◌, ◌<◌, List, ⊤};
ghost use Rattle.image.specs.Parse.{Parsed, counted};
ghost use Rattle.image.specs.Reads.{read_of, skip, Carries, ReadsAt, ReadsAs, ReadAlike, ReadsInside};

use crate::Read;
use crate::numbers::{read_number, u16_at};
use crate::positions::Position;

// The length up to which a u16 carries every position of a slice, its end included. Up to it, from a position within the slice on, the
// items are read with positions held as u16.
const NARROW: usize = 65535;

// A count, and as many items, each of which `read` reads. Put into its callers: most variants of a union count no fields, and a call for each
// would take longer than the read.
#[inline(always)]
pub(crate) fn read_counted<P: Position, F: Fn(&[u8], P) -> Read>(s: &[u8], at: P, read: F) -> Read
    requires carried { Carries P.carries s.now }
    requires callable { ReadsAt (F.pre read) P.carries }
    requires inside { ReadsInside (F.post read) }
    ensures { (p : List ℕ → ℕ → Parsed ⊤) → ReadsAs (F.post read) P.place_of p → read_of result ≡ skip (counted p s.now (P.place_of at)) }
{
    let count = read_number(s, at.place(), 2);
    let Ok(first) = count else {
        return count;
    };
    let mut next = P::hold(first);
    for _ in 0..u16_at(s, at.place()) {
        let step = read(s, next);
        let Ok(end) = step else {
            return step;
        };
        next = P::hold(end);
    }
    Ok(next.place())
}

// Items from a position, after their count: positions are held narrow where a u16 carries all of them.
pub(crate) fn read_items<N: Fn(&[u8], u16) -> Read, W: Fn(&[u8], usize) -> Read>(
    s: &[u8],
    at: usize,
    narrow: N,
    wide: W,
) -> Read
    requires narrow_callable { ReadsAt (N.pre narrow) (λ n. n < 2 ^ 16) }
    requires narrow_inside { ReadsInside (N.post narrow) }
    requires wide_callable { ReadsAt (W.pre wide) (λ _. ⊤) }
    requires wide_inside { ReadsInside (W.post wide) }
    ensures { (p : List ℕ → ℕ → Parsed ⊤) → ReadAlike (N.post narrow) (W.post wide) p → read_of result ≡ skip (counted p s.now at) }
{
    if s.len() <= NARROW && at <= s.len() {
        return read_counted(s, at as u16, narrow);
    }
    read_counted(s, at, wide)
}
