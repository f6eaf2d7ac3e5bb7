// The values that a detail shows of the old and of the new image.
ghost use Rattle.parts.specs.Handles.{schema_in};
ghost use Rattle.rules.specs.Text.{bool_word};
ghost use Rattle.rules.specs.Changes.{from_to};
ghost use Rattle.rules.specs.Clauses.{show_namespace};
ghost use Rattle.rules.specs.Widths.{show_width};
ghost use Rattle.text.specs.Writers.{Adds};
ghost use Rattle.details.specs.Details.{value_text, values_text};

use crate::Value;
use crate::names::put_quoted;
use display::encodings::encoding_display;
use display::namespaces::namespace_display;
use display::type_display;
use display::words::put_kind;
use parts::handles::Image;
use text::Writer;

// `true` or `false`.
#[tactic(auto, using(text::proofs::Writers::after_after), unfolding(rules::specs::Text::bool_word, image::specs::Words::bytes))]
fn put_bool(w: &mut Writer<'_>, value: bool)
    ensures { Adds w.old (bool_word value) w.new }
{
    if value {
        w.text(b"true");
    } else {
        w.text(b"false");
    }
}

// A width as it is stored; nothing, where there is none.
#[tactic(auto, using(text::proofs::Writers::adds_nil), unfolding(rules::specs::Widths::show_width))]
fn put_width(w: &mut Writer<'_>, value: Option<u8>)
    ensures { Adds w.old (show_width value) w.new }
{
    if let Some(n) = value {
        w.number(n as u64);
    }
}

// The namespace in quotes.
fn put_namespace(w: &mut Writer<'_>, image: Image<'_>)
    ensures { Adds w.old (show_namespace (schema_in image.entry).namespace) w.new }
{
    w.text(b"'");
    namespace_display(w, image);
    w.byte(b'\'');
}

// A value of one image.
#[tactic(auto, using(text::proofs::Writers::after_after))]
fn put_value(w: &mut Writer<'_>, value: Value<'_>)
    ensures { Adds w.old (value_text value.entry) w.new }
{
    match value {
        Value::Name(name) => put_quoted(w, name),
        Value::Kind(kind) => put_kind(w, kind),
        Value::NonExhaustive(mark) => put_bool(w, mark),
        Value::Width(width) => put_width(w, width),
        Value::Type(t) => type_display(w, t),
        Value::Encoding(encoding) => encoding_display(w, encoding),
        Value::Namespace(image) => put_namespace(w, image),
    }
}

// ` from u8 to u16`: the old value and the new one.
#[tactic(auto, using(text::proofs::Writers::after_after), unfolding(rules::specs::Changes::from_to, image::specs::Words::bytes))]
fn put_from_to(w: &mut Writer<'_>, old: Value<'_>, new: Value<'_>)
    ensures { Adds w.old (from_to (value_text old.entry) (value_text new.entry)) w.new }
{
    w.text(b" from ");
    put_value(w, old);
    w.text(b" to ");
    put_value(w, new);
}

// The values that changed, if they are shown.
#[tactic(auto, using(text::proofs::Writers::adds_nil))]
pub fn put_values(w: &mut Writer<'_>, values: Option<(Value<'_>, Value<'_>)>)
    ensures { Adds w.old (values_text values.entry) w.new }
{
    if let Some((old, new)) = values {
        put_from_to(w, old, new);
    }
}
