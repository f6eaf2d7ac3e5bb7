// The program's arguments.
ghost use Rattle.std.specs.Prelude.{◌≤◌, length, IfSome};

use std::env::{Env, FillError};

// Room for an argument: a path that is longer can't be opened.
pub const ROOM: usize = 4096;

// Puts argument i at the start of word and returns its length; 0 where it is longer than word, and none where there is no such argument.
fn fill(env: &impl Env, i: usize, word: &mut [u8]) -> Option<usize>
    ensures { IfSome result (λ n. n ≤ length word.new) }
{
    match env.arg(i, word) {
        Ok(n) => Some(n),
        Err(FillError::TooLong) => Some(0),
        Err(FillError::NotPresent) => None,
    }
}

// Argument i, if there is one, at the start of a buffer.
pub fn argument<'a>(env: &impl Env, i: usize, word: &'a mut [u8]) -> Option<&'a [u8]> {
    let n = fill(env, i, word)?;
    Some(&word[..n])
}
