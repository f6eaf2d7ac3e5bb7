// What the program prints: the report, the listing or the refusal on standard output, all else on standard error.
use parts::sides::Side;
use std::io::{self, Write};
use verdicts::{Fault, Verdict};

// How the program is called, and that its status is no answer.
const USAGE: &str =
    "usage: vexil_compat [OLD NEW | --list IMAGE | --help | --version]   (without arguments: old.img and new.img of the current folder)\nThe exit status is always 0 and means nothing: only what is printed is the answer. The status of the loading tool tells whether to load.\n";

// An answer that nobody gets is none.
fn warn_unless(rt: &impl Eprint, written: io::Result<()>) {
    if let Err(error) = written {
        let _told = eprintln!(rt; "vexil_compat: standard output: {error}");
    }
}

fn side_word(side: Side) -> &'static str {
    match side {
        Side::Old => "old",
        Side::New => "new",
        Side::Both => "both",
    }
}

// The text at the start of a buffer, or the refusal, as `refused 9 old`.
pub fn print_answer(rt: &(impl Print + Eprint), answer: Result<Verdict, Fault>, buffer: &[u8]) {
    let written = match answer {
        // The text always fits its buffer; the other case saves the proof of that.
        Ok(verdict) => io::writer(rt).write_all(buffer.get(..verdict.length).unwrap_or(buffer)),
        Err(fault) => println!(rt;
            "refused {} {}",
            fault.refusal.number(),
            side_word(fault.side)
        ),
    };
    warn_unless(rt, written);
}

pub fn print_usage(rt: &impl Eprint) {
    let _told = eprint!(rt; "{USAGE}");
}

pub fn print_help(rt: &(impl Print + Eprint)) {
    warn_unless(rt, print!(rt; "{USAGE}"));
}

// The version is that of the header for C.
pub fn print_version(rt: &(impl Print + Eprint)) {
    warn_unless(rt, println!(rt; "vexil_compat 2.1"));
}
