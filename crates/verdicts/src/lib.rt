// What a call is answered, of two images or of one: a verdict, made of a tally only, or why there is none; and the numbers that C is told
// of it.
#![tactic(auto)]

ghost use Rattle.std.specs.Prelude.{◌≡◌, Ok};
ghost use Rattle.verdicts.specs.Verdicts.{answer_values, of_tally, select_in};

use image::refusals::Refusal;
use image::sides::Side;
use tally::{Bump, CompatResult, KINDS, Tally};

// Why images get no verdict.
#[derive(Clone, Copy)]
pub struct Fault {
    pub refusal: Refusal,
    pub side: Side,
}

// The bump, the result, the length of the text, and the counts.
#[derive(Clone, Copy)]
pub struct Verdict {
    pub bump: Bump,
    pub result: CompatResult,
    pub length: usize,
    pub counts: [u64; KINDS],
}

impl Verdict {
    // Of a tally, and the length of the whole text.
    pub fn of_tally(t: Tally, length: usize) -> Verdict
        ensures { answer_values (Ok result) ≡ of_tally t length }
    {
        let counts = t.counts;
        Verdict {
            bump: t.bump,
            result: t.bump.result(),
            length,
            counts,
        }
    }
}

// What C is told: the number and the side of a refusal, 0 if there is none; bump, result, the length of the text, counts.
#[derive(Clone, Copy)]
pub struct Values {
    pub number: u8,
    pub side: u8,
    pub bump: u8,
    pub result: u8,
    pub length: usize,
    pub counts: [u64; KINDS],
}

impl Values {
    // Of a verdict; or of a refusal, "with bump Major, result Breaking, all counts and length 0".
    pub fn of(answer: Result<Verdict, Fault>) -> Values
        ensures { result ≡ answer_values answer }
    {
        match answer {
            Ok(v) => {
                let counts = v.counts;
                Values {
                    number: 0,
                    side: 0,
                    bump: v.bump.level(),
                    result: v.result.number(),
                    length: v.length,
                    counts,
                }
            }
            Err(fault) => Values {
                number: fault.refusal.number(),
                side: fault.side.number(),
                bump: Bump::MAJOR.level(),
                result: CompatResult::Breaking.number(),
                length: 0,
                counts: [0u64; KINDS],
            },
        }
    }

    // "0 the number, 1 the side .., 2 the bump .., 3 the result .., 4 the length, from 5 the counts in the order of `ChangeKind`; a
    // selector beyond them gives 0."
    pub fn select(self, selector: u64) -> u64
        ensures { result ≡ select_in self selector }
    {
        match selector {
            0 => self.number as u64,
            1 => self.side as u64,
            2 => self.bump as u64,
            3 => self.result as u64,
            4 => self.length as u64,
            _ if selector < 5 + KINDS as u64 => self.counts[(selector - 5) as usize],
            _ => 0,
        }
    }
}
