// Names: a length and as many letters, digits or `_`.
ghost use Rattle.std.specs.Prelude.{◌≡◌};
ghost use Rattle.image.specs.Names.{name_byte, name_at, names_at};
ghost use Rattle.image.specs.Numbers.{refusal_number};
ghost use Rattle.image.specs.Reads.{read_of, skip};

use crate::Read;
use crate::refusals::Refusal;

#[tactic(auto, unfolding(crate::specs::Names::name_byte))]
fn is_name_byte(b: u8) -> bool
    ensures { result ≡ name_byte b }
{
    // Small letters stand last in the code and are most of a name.
    if b'a' <= b {
        return b <= b'z';
    }
    b.is_ascii_uppercase() || b.is_ascii_digit() || b == b'_'
}

// The length is judged before the bytes. `short` is the refusal where the list ends before the name does.
#[tactic(auto, using(crate::proofs::Laws::Names::naming))]
pub fn read_name(s: &[u8], at: usize, short: Refusal) -> Read
    ensures { read_of result ≡ skip (name_at (refusal_number short) s.now at) }
{
    if s.len() <= at {
        return Err(short);
    }
    let k = s[at] as usize;
    let from = at + 1;
    if s.len() - from < k {
        return Err(short);
    }
    let end = from + k;
    for i in from..end {
        if !is_name_byte(s[i]) {
            return Err(Refusal::Name);
        }
    }
    Ok(end)
}

// So many names, one after the other.
#[tactic(auto, using(crate::proofs::Laws::Repeats::rests), unfolding(crate::specs::Names::names_at))]
pub fn read_names(s: &[u8], at: usize, count: usize, short: Refusal) -> Read
    ensures { read_of result ≡ skip (names_at (refusal_number short) count s.now at) }
{
    let mut next = at;
    for _ in 0..count {
        let step = read_name(s, next, short);
        let Ok(after) = step else {
            return step;
        };
        next = after;
    }
    Ok(next)
}
