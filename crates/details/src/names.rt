// Names as the report shows them: quoted, and those of a change's declaration and field.
ghost use Rattle.rules.specs.Changes.{quoted};
ghost use Rattle.rules.specs.Report.{field_part};
ghost use Rattle.text.specs.Writers.{Adds};
ghost use Rattle.details.specs.Details.{variant_name, declaration_of, field_of};

use crate::Scope;
use text::Writer;

// 'Drive'
#[tactic(auto, using(text::proofs::Writers::after_after), unfolding(rules::specs::Changes::quoted, image::specs::Words::bytes))]
pub(crate) fn put_quoted(w: &mut Writer<'_>, name: &[u8])
    ensures { Adds w.old (quoted name.now) w.new }
{
    w.text(b"'");
    w.text(name);
    w.byte(b'\'');
}

// "under the declaration's name, two colons and the old variant's name"
#[tactic(auto, using(text::proofs::Writers::after_after), unfolding(image::specs::Words::bytes))]
fn put_variant(w: &mut Writer<'_>, decl: &[u8], variant: &[u8])
    ensures { Adds w.old (variant_name decl.now variant.now) w.new }
{
    w.text(decl);
    w.text(b"::");
    w.text(variant);
}

// The name of the declaration that a change is in.
#[tactic(auto, using(text::proofs::Writers::after_after, text::proofs::Writers::adds_nil))]
pub fn put_declaration(w: &mut Writer<'_>, scope: Scope<'_>)
    ensures { Adds w.old (declaration_of scope.entry) w.new }
{
    match scope {
        Scope::Schema => {}
        Scope::Decl(name) => w.text(name),
        Scope::Variant(decl, variant) => put_variant(w, decl, variant),
    }
}

// `+` and a field's name.
#[tactic(auto, using(text::proofs::Writers::after_after), unfolding(rules::specs::Report::field_part, image::specs::Words::bytes))]
fn put_plus(w: &mut Writer<'_>, name: &[u8])
    ensures { Adds w.old (field_part (Some name.now)) w.new }
{
    w.byte(b'+');
    w.text(name);
}

// "`-` if the change has no field, else `+` and the field"
#[tactic(auto, using(text::proofs::Writers::after_after), unfolding(rules::specs::Report::field_part, image::specs::Words::bytes))]
pub fn put_field(w: &mut Writer<'_>, field: Option<&[u8]>)
    ensures { Adds w.old (field_part (field_of field.entry)) w.new }
{
    match field {
        None => w.byte(b'-'),
        Some(name) => put_plus(w, name),
    }
}
