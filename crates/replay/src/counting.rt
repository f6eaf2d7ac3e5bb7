// What a run has counted.
use std::io;

// Of so many pairs false answers are compared too, each of which must be counted as a difference.
const FALSIFIED: u64 = 8;

#[derive(Clone, Copy, Default)]
pub struct Tally {
    pairs: u64,
    differences: u64,
    falsified: u64,
    caught: u64,
}

impl Tally {
    // Whether false answers are compared with this pair's.
    pub fn falsifies(&self) -> bool {
        self.pairs < FALSIFIED
    }

    pub fn differences(&self) -> u64 {
        self.differences
    }

    // A pair, once all of it is compared.
    pub fn count_pair(&mut self) {
        self.pairs = self.pairs.saturating_add(1);
    }

    // A difference, if there is one.
    pub fn tell(&mut self, differs: bool) {
        self.differences = self.differences.saturating_add(u64::from(differs));
    }

    // A false answer, and whether it was told from the one that was got.
    pub fn falsify(&mut self, differs: bool) {
        self.falsified = self.falsified.saturating_add(1);
        self.caught = self.caught.saturating_add(u64::from(differs));
    }

    // A line for each count, each written by itself: who reads them may have room for some alone.
    pub fn print(&self, rt: &impl Print) -> io::Result<()> {
        println!(rt; "pairs: {}", self.pairs)?;
        println!(rt; "differences: {}", self.differences)?;
        println!(rt; "falsified answers: {}", self.falsified)?;
        println!(rt; "counted as differences: {}", self.caught)
    }

    // A number beside the recorded one, and of the first pairs beside a false one.
    pub fn compare(&mut self, got: u64, recorded: u64) {
        self.tell(got != recorded);
        if self.falsifies() {
            self.falsify(got != u64::from(recorded == 0));
        }
    }
}
