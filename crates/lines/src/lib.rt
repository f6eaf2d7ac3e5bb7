// Changes and their lines: what a line shows, and the report, the one place where a change is counted and its line written.
#![tactic(auto)]

mod reporting;
pub mod words;

ghost use Rattle.std.specs.Prelude.{◌≡◌, [], ◌∷◌};
ghost use Rattle.tally.specs.Tallies.{no_change};
ghost use Rattle.lines.specs.Sites.{change_of, value_changed};
ghost use Rattle.lines.specs.Reports.{buffer_of, with_text, Reports, Ends};

use crate::reporting::{Line, line_into};
use details::{Detail, Scope, Subject, Value, Verb};
use tally::{Bump, ChangeKind, Tally};

// A change: its kind and weight, and what its line shows.
#[derive(Clone, Copy)]
pub struct Site<'a> {
    pub kind: ChangeKind,
    pub bump: Bump,
    pub scope: Scope<'a>,
    pub field: Option<&'a [u8]>,
    pub detail: Detail<'a>,
}

impl<'a> Site<'a> {
    // Of what a scope names, or of something in it: it changed from one value to another. Major, and without a field.
    #[tactic(auto, unfolding(details::specs::Details::detail_text, image::specs::Words::bytes))]
    pub fn changed(
        kind: ChangeKind,
        scope: Scope<'a>,
        subject: Subject<'a>,
        was: Value<'a>,
        is: Value<'a>,
    ) -> Site<'a>
        ensures { change_of result ≡ value_changed kind scope.entry subject.entry was.entry is.entry }
    {
        Site {
            kind,
            bump: Bump::MAJOR,
            scope,
            field: None,
            detail: Detail {
                subject,
                verb: Verb::Changed,
                values: Some((was, is)),
            },
        }
    }
}

// How two images are read, as document 01 says, or mended: when their types are equal, and whether widths and tombstones are reported.
#[derive(Clone, Copy, Debug, PartialEq, Eq)]
pub enum Reading {
    Plain,
    Mended,
}

// The report so far: its lines, as far as the buffer reaches, how long they are, and the tally of their changes; and how the images are
// read. What is past the end of the buffer is counted and not written, so that an empty buffer measures.
#[derive(Drop)]
pub struct Report<'a> {
    out: &'a mut [u8],
    pub length: usize,
    pub tally: Tally,
    pub reading: Reading,
}

impl Report<'_> {
    // Of no change, from the start of a buffer.
    pub fn new(out: &mut [u8], reading: Reading) -> Report<'_>
        ensures same_reference { (buffer_of result).ghost_name ≡ out.entry.ghost_name }
        ensures bytes { (buffer_of result).now ≡ out.old }
        ensures start { result.length ≡ 0 }
        ensures tally { result.tally ≡ no_change }
        ensures reading { result.reading ≡ reading }
    {
        Report {
            out,
            length: 0,
            tally: Tally::empty(),
            reading,
        }
    }

    // A change is counted, and its line written after the lines before it.
    pub fn emit(&mut self, site: Site<'_>)
        ensures { Reports self.old (change_of site.entry ∷ []) self.new }
    {
        self.put(site);
        self.tally = self.tally.with_change(site.kind, site.bump);
    }

    // "Last line, in the same way: result, bump, number of changes."
    pub fn put_last_line(&mut self)
        ensures { Ends self.old self.new }
    {
        self.put(self.tally);
    }

    // A line after the lines so far: into the part of the buffer after them, and counted.
    fn put<L: Line>(&mut self, line: L)
        ensures { self.new ≡ with_text self.old (L.line_of line) }
    {
        let done = self.length.min(self.out.len());
        let n = line_into(&mut self.out[done..], line);
        self.length = self.length.saturating_add(n);
    }
}
