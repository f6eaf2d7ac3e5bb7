// Names at places of the image: a length and as many bytes.
ghost use Rattle.std.specs.Prelude.{◌≡◌};
ghost use Rattle.parts.specs.Promise.{NameHere, name_in, name_end, NamesHere, names_end};

// The bytes of a name.
#[tactic(auto, using(crate::proofs::Laws::Steps::naming))]
pub fn name_at(image: &[u8], at: usize) -> &[u8]
    requires { NameHere image.now at }
    ensures { result.now ≡ name_in image.now at }
{
    let start = at + 1;
    let end = start + image[at] as usize;
    &image[start..end]
}

// The end of a name.
#[tactic(auto, using(crate::proofs::Laws::Steps::naming))]
pub fn name_end(image: &[u8], at: usize) -> usize
    requires { NameHere image.now at }
    ensures { result ≡ name_end image.now at }
{
    at + 1 + image[at] as usize
}

// The end of so many names.
#[tactic(auto, using(crate::proofs::Laws::Skips::names))]
pub(crate) fn names_end(image: &[u8], at: usize, count: usize) -> usize
    requires { NamesHere image.now count at }
    ensures { result ≡ names_end image.now count at }
{
    let mut next = at;
    for _ in 0..count {
        next = name_end(image, next);
    }
    next
}
