// 11. "survivors of one name are generic aliases in both images": of all that stands.
ghost use Rattle.std.specs.Prelude.{◌≡◌, eqb};
ghost use Rattle.std.specs.Option.{option_map};
ghost use Rattle.parts.specs.Codes.{number, alias_kind};
ghost use Rattle.parts.specs.Numbers.{kind_number};
ghost use Rattle.parts.specs.Handles.{decl_of};
ghost use Rattle.rules.specs.Verdict.{is_alias};
ghost use Rattle.checking.specs.Decls.{both_aliases, aliases_at, aliases_of};

use parts::handles::Decl;
use parts::kinds::Kind;
use survivors::decls::Declarations;

// Whether a kind is the generic alias.
fn is_alias_kind(kind: Kind) -> bool
    ensures { result ≡ eqb (kind_number kind) (number alias_kind) }
{
    matches!(kind, Kind::Alias)
}

// Whether a declaration, if there is one, is a generic alias.
fn is_alias(found: Option<Decl<'_>>) -> bool
    ensures { result ≡ is_alias (option_map decl_of found.entry) }
{
    let Some(decl) = found else {
        return false;
    };
    is_alias_kind(decl.kind())
}

// Whether what stands under a name is a generic alias in both images.
fn aliases_at(old: Declarations<'_>, new: Declarations<'_>, name: &[u8]) -> bool
    ensures { result ≡ aliases_at old.entry new.entry name.now }
{
    is_alias(old.survivor(name)) && is_alias(new.survivor(name))
}

// Whether an entry of the old image is a generic alias, and so is what stands under its name in both images. Its kind is looked at before
// any name.
fn aliases_of(old: Declarations<'_>, new: Declarations<'_>, found: Option<Decl<'_>>) -> bool
    ensures { result ≡ aliases_of old.entry new.entry (option_map decl_of found.entry) }
{
    let Some(decl) = found else {
        return false;
    };
    is_alias_kind(decl.kind()) && aliases_at(old, new, decl.name())
}

// Whether what stands under some name is a generic alias in both images.
pub fn alias_pair(old: Declarations<'_>, new: Declarations<'_>) -> bool
    ensures { result ≡ both_aliases old.entry new.entry }
{
    let n = old.count();
    for i in 0..n {
        if aliases_of(old, new, old.candidate(i)) {
            return true;
        }
    }
    false
}
