// The names of `ChangeKind`, `BumpKind` and `CompatResult`, each written by its own arm.
ghost use Rattle.rules.specs.Report.{change_word, bump_word, result_word};
ghost use Rattle.tally.specs.Tallies.{kind_number, level_of, result_number};
ghost use Rattle.text.specs.Writers.{Adds};

use tally::{Bump, ChangeKind, CompatResult};
use text::Writer;

pub fn put_change(w: &mut Writer<'_>, kind: ChangeKind)
    ensures { Adds w.old (change_word (kind_number kind)) w.new }
{
    match kind {
        ChangeKind::FieldAdded => w.text(b"FieldAdded"),
        ChangeKind::FieldRemoved => w.text(b"FieldRemoved"),
        ChangeKind::FieldTypeChanged => w.text(b"FieldTypeChanged"),
        ChangeKind::FieldOrdinalChanged => w.text(b"FieldOrdinalChanged"),
        ChangeKind::FieldRenamed => w.text(b"FieldRenamed"),
        ChangeKind::FieldDeprecated => w.text(b"FieldDeprecated"),
        ChangeKind::FieldEncodingChanged => w.text(b"FieldEncodingChanged"),
        ChangeKind::VariantAdded => w.text(b"VariantAdded"),
        ChangeKind::VariantRemoved => w.text(b"VariantRemoved"),
        ChangeKind::VariantOrdinalChanged => w.text(b"VariantOrdinalChanged"),
        ChangeKind::DeclarationAdded => w.text(b"DeclarationAdded"),
        ChangeKind::DeclarationRemoved => w.text(b"DeclarationRemoved"),
        ChangeKind::DeclarationKindChanged => w.text(b"DeclarationKindChanged"),
        ChangeKind::NamespaceChanged => w.text(b"NamespaceChanged"),
        ChangeKind::NonExhaustiveChanged => w.text(b"NonExhaustiveChanged"),
        ChangeKind::FlagsBitAdded => w.text(b"FlagsBitAdded"),
        ChangeKind::FlagsBitRemoved => w.text(b"FlagsBitRemoved"),
        ChangeKind::FlagsBitOrdinalChanged => w.text(b"FlagsBitOrdinalChanged"),
        ChangeKind::WidthChanged => w.text(b"WidthChanged"),
        ChangeKind::TombstoneReused => w.text(b"TombstoneReused"),
        ChangeKind::TombstoneDropped => w.text(b"TombstoneDropped"),
    }
}

#[tactic(auto, using(crate::proofs::Arms::bump_told), unfolding(image::specs::Words::bytes))]
pub fn put_bump(w: &mut Writer<'_>, bump: Bump)
    ensures { Adds w.old (bump_word (level_of bump)) w.new }
{
    match bump {
        Bump::Patch => w.text(b"Patch"),
        Bump::Minor => w.text(b"Minor"),
        Bump::Major => w.text(b"Major"),
    }
}

#[tactic(auto, using(crate::proofs::Arms::result_told), unfolding(image::specs::Words::bytes))]
pub fn put_compat(w: &mut Writer<'_>, of: CompatResult)
    ensures { Adds w.old (result_word (result_number of)) w.new }
{
    match of {
        CompatResult::Compatible => w.text(b"Compatible"),
        CompatResult::Breaking => w.text(b"Breaking"),
    }
}
