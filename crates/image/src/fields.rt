// The items of a body: fields, variants and bits.
ghost use Rattle.std.specs.Prelude.{◌≡◌, ◌^◌, ◌<◌};
ghost use Rattle.image.specs.Numbers.{format_number};
ghost use Rattle.image.specs.Parse.{counted};
ghost use Rattle.image.specs.Fields.{marks_at, encoding_at, limit_at, field_at, bare_at, variant_at};
ghost use Rattle.image.specs.Reads.{read_of, skip, Carries};

use crate::Read;
use crate::counted::{read_counted, read_items};
use crate::formats::Format;
use crate::names::read_name;
use crate::numbers::{read_code, read_number};
use crate::positions::Position;
use crate::refusals::Refusal;
use crate::tombstones::read_struck;
use crate::types::read_type_at;

// Bit 0 deprecated, bit 1 non-exhaustive, others 0.
#[tactic(auto, using(crate::proofs::Laws::Fields::marks_code))]
pub fn read_marks(s: &[u8], at: usize) -> Read
    ensures { read_of result ≡ skip (marks_at s.now at) }
{
    read_code(s, at, 0, 3)
}

// 0 default, 1 varint, 2 zigzag, 3 delta and an inner encoding; at most eight deltas, so that there are nine codes at most.
fn read_encoding<P: Position>(s: &[u8], at: P) -> Read
    requires { Carries P.carries s.now }
    ensures { read_of result ≡ skip (encoding_at s.now (P.place_of at)) }
{
    let mut next = at;
    for _ in 0..9u8 {
        let step = read_code(s, next.place(), 0, 3);
        let Ok(after) = step else {
            return step;
        };
        if s[next.place()] != 3 {
            return step;
        }
        next = P::hold(after);
    }
    Err(Refusal::Deep)
}

// A byte 0, or a byte 1 and the limit's eight bytes.
fn read_limit<P: Position>(s: &[u8], at: P) -> Read
    requires { Carries P.carries s.now }
    ensures { read_of result ≡ skip (limit_at s.now (P.place_of at)) }
{
    let step = read_code(s, at.place(), 0, 1);
    let Ok(after) = step else {
        return step;
    };
    let next = P::hold(after);
    if s[at.place()] == 0 {
        return step;
    }
    read_number(s, next.place(), 8)
}

// A variant of an enum or a bit of flags: ordinal and name. Every other item starts so too.
fn read_bare<P: Position>(s: &[u8], at: P) -> Read
    requires { Carries P.carries s.now }
    ensures { read_of result ≡ skip (bare_at s.now (P.place_of at)) }
{
    let ordinal = read_number(s, at.place(), 4);
    let Ok(after) = ordinal else {
        return ordinal;
    };
    let name_at = P::hold(after);
    read_name(s, name_at.place(), Refusal::Body)
}

// A field: ordinal, name, marks, encoding, limit, type.
fn read_field<P: Position>(s: &[u8], at: P) -> Read
    requires { Carries P.carries s.now }
    ensures { read_of result ≡ skip (field_at s.now (P.place_of at)) }
{
    let bare = read_bare(s, at);
    let Ok(after) = bare else {
        return bare;
    };
    let marks_at = P::hold(after);
    let marks = read_marks(s, marks_at.place());
    let Ok(after) = marks else {
        return marks;
    };
    let encoding_at = P::hold(after);
    let encoding = read_encoding(s, encoding_at);
    let Ok(after) = encoding else {
        return encoding;
    };
    let limit_at = P::hold(after);
    let limit = read_limit(s, limit_at);
    let Ok(after) = limit else {
        return limit;
    };
    let type_at = P::hold(after);
    read_type_at(s, type_at.place())
}

// A variant of a union: ordinal, name, fields and tombstones.
fn read_variant<P: Position>(format: Format, s: &[u8], at: P) -> Read
    requires { Carries P.carries s.now }
    ensures { read_of result ≡ skip (variant_at (format_number format) s.now (P.place_of at)) }
{
    let bare = read_bare(s, at);
    let Ok(after) = bare else {
        return bare;
    };
    let fields_at = P::hold(after);
    let fields = read_counted(s, fields_at, read_field);
    let Ok(after) = fields else {
        return fields;
    };
    let tombstones_at = P::hold(after);
    read_struck(format, s, tombstones_at)
}

// A count and as many fields.
pub fn read_fields(s: &[u8], at: usize) -> Read
    ensures { read_of result ≡ skip (counted field_at s.now at) }
{
    read_items(s, at, read_field, read_field)
}

// A count and as many variants of an enum or bits of flags.
pub fn read_bares(s: &[u8], at: usize) -> Read
    ensures { read_of result ≡ skip (counted bare_at s.now at) }
{
    read_items(s, at, read_bare, read_bare)
}

// A count and as many variants of a union.
pub fn read_variants(format: Format, s: &[u8], at: usize) -> Read
    ensures { read_of result ≡ skip (counted (variant_at (format_number format)) s.now at) }
{
    read_items(
        s,
        at,
        |s: &[u8], at: u16| -> Read
            requires { Carries (λ n. n < 2 ^ 16) s.now }
            ensures { read_of result ≡ skip (variant_at (format_number format) s.now at) }
        { read_variant(format, s, at) },
        |s: &[u8], at: usize| -> Read
            ensures { read_of result ≡ skip (variant_at (format_number format) s.now at) }
        { read_variant(format, s, at) },
    )
}
