// What a detail says something of.
ghost use Rattle.rules.specs.Changes.{numbered};
ghost use Rattle.text.specs.Writers.{Adds};
ghost use Rattle.details.specs.Details.{word_text, decl_text, newtype_text, field_name_text, at_text, ordinal_text, subject_text};

use crate::names::put_quoted;
use crate::{Subject, Word};
use display::words::put_kind;
use parts::kinds::Kind;
use text::Writer;

// What an item is called.
#[tactic(auto, using(text::proofs::Writers::after_after), unfolding(image::specs::Words::bytes))]
fn put_item_word(w: &mut Writer<'_>, word: Word)
    ensures { Adds w.old (word_text word) w.new }
{
    match word {
        Word::Field => w.text(b"field"),
        Word::Variant => w.text(b"variant"),
        Word::Bit => w.text(b"bit"),
    }
}

//  @1
#[tactic(auto, using(text::proofs::Writers::after_after), unfolding(image::specs::Words::bytes))]
fn put_at(w: &mut Writer<'_>, ordinal: u32)
    ensures { Adds w.old (at_text ordinal) w.new }
{
    w.text(b" @");
    w.number(ordinal as u64);
}

// field 'limit' @1
#[tactic(auto, using(text::proofs::Writers::after_after), unfolding(rules::specs::Changes::numbered, image::specs::Words::bytes))]
fn put_item(w: &mut Writer<'_>, word: Word, name: &[u8], ordinal: u32)
    ensures { Adds w.old (numbered (word_text word) name.now ordinal) w.new }
{
    put_item_word(w, word);
    w.byte(b' ');
    put_quoted(w, name);
    put_at(w, ordinal);
}

// message 'Drive'
#[tactic(auto, using(text::proofs::Writers::after_after), unfolding(image::specs::Words::bytes))]
fn put_decl(w: &mut Writer<'_>, kind: Kind, name: &[u8])
    ensures { Adds w.old (decl_text kind name.now) w.new }
{
    put_kind(w, kind);
    w.byte(b' ');
    put_quoted(w, name);
}

// newtype 'Speed' inner
#[tactic(auto, using(text::proofs::Writers::after_after), unfolding(image::specs::Words::bytes))]
fn put_newtype(w: &mut Writer<'_>, name: &[u8])
    ensures { Adds w.old (newtype_text name.now) w.new }
{
    w.text(b"newtype ");
    put_quoted(w, name);
    w.text(b" inner");
}

// field 'limit'
#[tactic(auto, using(text::proofs::Writers::after_after), unfolding(image::specs::Words::bytes))]
fn put_field_name(w: &mut Writer<'_>, name: &[u8])
    ensures { Adds w.old (field_name_text name.now) w.new }
{
    w.text(b"field ");
    put_quoted(w, name);
}

// field @1, tombstone @3
#[tactic(auto, using(text::proofs::Writers::after_after), unfolding(image::specs::Words::bytes))]
fn put_ordinal(w: &mut Writer<'_>, what: &[u8], ordinal: u32)
    ensures { Adds w.old (ordinal_text what.now ordinal) w.new }
{
    w.text(what);
    put_at(w, ordinal);
}

// What the detail says something of.
#[tactic(auto, using(text::proofs::Writers::after_after), unfolding(image::specs::Words::bytes))]
pub fn put_subject(w: &mut Writer<'_>, subject: Subject<'_>)
    ensures { Adds w.old (subject_text subject.entry) w.new }
{
    match subject {
        Subject::Namespace => w.text(b"namespace"),
        Subject::Declaration => w.text(b"declaration"),
        Subject::NonExhaustive => w.text(b"@non_exhaustive"),
        Subject::Width => w.text(b"width"),
        Subject::Decl(kind, name) => put_decl(w, kind, name),
        Subject::DeclName(name) => put_quoted(w, name),
        Subject::Newtype(name) => put_newtype(w, name),
        Subject::Item(word, name, ordinal) => put_item(w, word, name, ordinal),
        Subject::FieldName(name) => put_field_name(w, name),
        Subject::FieldOrdinal(ordinal) => put_ordinal(w, b"field", ordinal),
        Subject::Tombstone(ordinal) => put_ordinal(w, b"tombstone", ordinal),
    }
}
