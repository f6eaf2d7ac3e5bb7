// The detail of a change, apart from its line: what the change is of, what happened to it, and the values that changed; and the names of a
// line.
#![tactic(auto, using(text::proofs::Writers::after_after))]

pub mod names;
mod shown;
mod subjects;

ghost use Rattle.text.specs.Writers.{Adds};
ghost use Rattle.details.specs.Details.{verb_text, detail_text};

use crate::shown::put_values;
use crate::subjects::put_subject;
use parts::Encoding;
use parts::handles::{Image, TypeRef};
use parts::kinds::Kind;
use text::Writer;

// The declaration that a change is in, by its name: none, for the namespace; or a variant of a union, by the names of both.
#[derive(Clone, Copy)]
pub enum Scope<'a> {
    Schema,
    Decl(&'a [u8]),
    Variant(&'a [u8], &'a [u8]),
}

// What an item is called in a detail.
#[derive(Clone, Copy)]
pub enum Word {
    Field,
    Variant,
    Bit,
}

// What a detail says something of.
#[derive(Clone, Copy)]
pub enum Subject<'a> {
    // namespace
    Namespace,
    // declaration
    Declaration,
    // @non_exhaustive
    NonExhaustive,
    // width
    Width,
    // message 'Drive'
    Decl(Kind, &'a [u8]),
    // 'Drive'
    DeclName(&'a [u8]),
    // newtype 'Speed' inner
    Newtype(&'a [u8]),
    // field 'limit' @1
    Item(Word, &'a [u8], u32),
    // field 'limit'
    FieldName(&'a [u8]),
    // field @1
    FieldOrdinal(u32),
    // tombstone @3
    Tombstone(u32),
}

// What happened to the subject.
#[derive(Clone, Copy)]
pub enum Verb {
    Removed,
    Added,
    Changed,
    Renamed,
    TypeChanged,
    EncodingChanged,
    Deprecated,
    Reused,
    Dropped,
}

// What is shown of one of the two images: the name of an item, the kind, the mark or the width of a declaration, a type, the encoding of a
// field, the namespace.
#[derive(Clone, Copy)]
pub enum Value<'a> {
    Name(&'a [u8]),
    Kind(Kind),
    NonExhaustive(bool),
    Width(Option<u8>),
    Type(TypeRef<'a>),
    Encoding(Encoding),
    Namespace(Image<'a>),
}

// A detail in its parts: with the old value and the new one, if it shows them.
#[derive(Clone, Copy)]
pub struct Detail<'a> {
    pub subject: Subject<'a>,
    pub verb: Verb,
    pub values: Option<(Value<'a>, Value<'a>)>,
}

// What happened to the subject.
#[tactic(auto, using(text::proofs::Writers::after_after), unfolding(image::specs::Words::bytes))]
fn put_verb(w: &mut Writer<'_>, verb: Verb)
    ensures { Adds w.old (verb_text verb) w.new }
{
    match verb {
        Verb::Removed => w.text(b" was removed"),
        Verb::Added => w.text(b" was added"),
        Verb::Changed => w.text(b" changed"),
        Verb::Renamed => w.text(b" renamed"),
        Verb::TypeChanged => w.text(b" type changed"),
        Verb::EncodingChanged => w.text(b" encoding changed"),
        Verb::Deprecated => w.text(b" was marked @deprecated"),
        Verb::Reused => w.text(b" was reused"),
        Verb::Dropped => w.text(b" was dropped"),
    }
}

// Subject, verb and values.
#[tactic(auto, using(text::proofs::Writers::after_after), unfolding(crate::specs::Details::detail_text))]
pub fn put_detail(w: &mut Writer<'_>, detail: Detail<'_>)
    ensures { Adds w.old (detail_text detail.entry) w.new }
{
    put_subject(w, detail.subject);
    put_verb(w, detail.verb);
    put_values(w, detail.values);
}
