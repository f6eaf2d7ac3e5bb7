// Compares two images and prints the report or the refusal: `vexil_compat [OLD NEW]`, without arguments old.img and new.img of the current
// folder; or lists the contents of one: `vexil_compat --list IMAGE`. What is printed is the answer; the exit status is always 0.
#![tactic(auto)]

mod arguments;
mod files;
mod printing;

use arguments::argument;
use compat::policies::Policy;
use files::read;
use listing::{checked, write_listing};
use std::rt::Files;

// The bytes of a buffer for a text, since nothing is allocated; a longer text is refused by the library.
const ROOM: usize = 65536;

// The report of two images.
fn compare(rt: &(impl Print + Eprint), old: &[u8], new: &[u8]) {
    let mut out = [0; ROOM];
    let answer = compat::report(Policy::PLAIN, old, new, &mut out);
    printing::print_answer(rt, answer, &out);
}

// The contents listing of one image.
fn list(rt: &(impl Print + Eprint), image: &[u8]) {
    let mut out = [0; ROOM];
    let answer = checked(image, out.len());
    if answer.is_ok() {
        write_listing(image, &mut out);
    }
    printing::print_answer(rt, answer, &out);
}

fn compare_files<R: Print + Eprint + Files>(rt: &R, old_path: &[u8], new_path: &[u8]) {
    let mut old = [0; files::ROOM];
    let mut new = [0; files::ROOM];
    compare(
        rt,
        read(rt, old_path, &mut old),
        read(rt, new_path, &mut new),
    );
}

fn list_file<R: Print + Eprint + Files>(rt: &R, path: &[u8]) {
    let mut image = [0; files::ROOM];
    list(rt, read(rt, path, &mut image));
}

// One argument, which asks about the program.
fn answer_argument(rt: &(impl Print + Eprint), word: &[u8]) {
    match word {
        b"--help" => printing::print_help(rt),
        b"--version" => printing::print_version(rt),
        _ => printing::print_usage(rt),
    }
}

// Two arguments: the paths of the images, or the option and the path of one. What starts with `-` is an option and no path; a file of such
// a name can be given as `./-name`.
fn answer_arguments<R: Print + Eprint + Files>(rt: &R, first: &[u8], second: &[u8]) {
    match (first, second) {
        (_, [b'-', ..]) => printing::print_usage(rt),
        (b"--list", path) => list_file(rt, path),
        ([b'-', ..], _) => printing::print_usage(rt),
        (old_path, new_path) => compare_files(rt, old_path, new_path),
    }
}

fn main(rt: HostRuntime) {
    let mut first = [0; arguments::ROOM];
    let mut second = [0; arguments::ROOM];
    let first = argument(&rt, 1, &mut first);
    let second = argument(&rt, 2, &mut second);
    match (first, second, argument(&rt, 3, &mut [0; 1])) {
        (None, _, _) => compare_files(&rt, b"old.img", b"new.img"),
        (Some(word), None, _) => answer_argument(&rt, word),
        (Some(first), Some(second), None) => answer_arguments(&rt, first, second),
        (Some(_), Some(_), Some(_)) => printing::print_usage(&rt),
    }
}
