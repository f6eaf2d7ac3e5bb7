// The starts of declarations: the kind, and the name unless it is an impl. They stand so in every format, and the bytes need not be a whole
// image.
ghost use Rattle.std.specs.Prelude.{◌≡◌};
ghost use Rattle.image.specs.Numbers.{kind_number};
ghost use Rattle.parts.specs.Promise.{StartHere, start_kind, start_name};

use crate::names::name_at;
use image::kinds::Kind;

#[tactic(auto, unfolding(crate::specs::Promise::start_kind))]
pub fn start_kind(s: &[u8], at: usize) -> Kind
    requires { StartHere s.now at }
    ensures { kind_number result ≡ start_kind s.now at }
{
    Kind::of(s[at])
}

// The bytes of the name; an impl's is empty.
#[tactic(auto, using(crate::proofs::Laws::Starts::starts), unfolding(crate::specs::Promise::start_kind))]
pub fn start_name(s: &[u8], at: usize) -> &[u8]
    requires { StartHere s.now at }
    ensures { result.now ≡ start_name s.now at }
{
    match start_kind(s, at) {
        Kind::Impl => &s[at..at],
        _ => name_at(s, at + 1),
    }
}
