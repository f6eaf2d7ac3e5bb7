// Replays the recorded answers: each image of each pair is read and listed, the verdict, its values and the report are asked for, those of
// 01, those with imports and the mended ones, and what is answered is compared with what is recorded.
#![tactic(auto)]

mod answers;
mod buffers;
mod calls;
mod counting;
mod file;
mod listings;
mod run;
mod texts;
mod values;

use counting::Tally;
use file::{Broken, read_array, read_u32};
use run::Run;
use std::fs;
use std::io::{self, Read};

// The most counts that an answer may have.
const COUNTS: usize = 64;

// The header: eight bytes that say what the file is, the number of pairs and of counts, and four largest lengths.
fn replay_file(rt: &impl Print, mut file: impl Read + Drop) -> Result<Tally, Broken> {
    let magic: [u8; 8] = read_array(&mut file)?;
    if magic != *b"VEXANSW6" {
        return Err(Broken);
    }
    let pairs = read_u32(&mut file)?;
    let counts = read_u32(&mut file)? as usize;
    if COUNTS < counts {
        return Err(Broken);
    }
    let _lengths: [u8; 16] = read_array(&mut file)?;
    Run::new(file, counts).replay(rt, pairs)
}

fn main(rt: HostRuntime) -> io::Result<()> {
    let file = fs::open(&rt, "answers.bin")?;
    match replay_file(&rt, file) {
        Ok(tally) => tally.print(&rt),
        Err(broken) => println!(rt; "{broken}"),
    }
}
