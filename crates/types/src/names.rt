// Names: whether two are equal, and whether two lists of them are.
ghost use Rattle.std.specs.Prelude.{◌≡◌};
ghost use Rattle.parts.specs.Handles.{names_of};
ghost use Rattle.rules.specs.Equal.{same_name, same_names};

use parts::handles::Names;

// Whether two names are the same bytes.
#[tactic(auto, using(crate::proofs::Laws::Names::bytes))]
pub fn same_name(a: &[u8], b: &[u8]) -> bool
    ensures { result ≡ same_name a.now b.now }
{
    a == b
}

// Whether two lists of names are the same.
pub(crate) fn same_names(old: Names<'_>, new: Names<'_>) -> bool
    ensures { result ≡ same_names (names_of old.entry) (names_of new.entry) }
{
    old.eq(new)
}
