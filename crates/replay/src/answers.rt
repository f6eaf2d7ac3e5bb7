// A recorded answer beside what is answered by a verdict.
use crate::calls::{Pair, Verdict};
use crate::counting::Tally;
use crate::file::Broken;
use crate::texts::{Text, replay_refused};
use crate::values::Values;
use std::io::Read;

#[derive(Clone, Copy)]
pub struct Answer<'a> {
    values: Values,
    // None of a refusal.
    report: Option<Text<'a>>,
}

impl<'a> Answer<'a> {
    // Number, side, bump, result, length, counts and report, which is read into a buffer.
    pub fn read(
        file: &mut impl Read,
        counts: usize,
        buffer: &'a mut [u8],
    ) -> Result<Answer<'a>, Broken> {
        let values = Values::read(file, counts)?;
        let report = match values.number() {
            0 => Some(Text::read(file, values.length(), buffer)?),
            _ => None,
        };
        Ok(Answer { values, report })
    }

    // All selectors, the values and the report.
    pub fn replay<V: Verdict>(&self, pair: Pair<'_>, tally: &mut Tally) {
        self.values.replay_selectors::<V>(pair, tally);
        self.values.replay::<V>(pair, tally);
        let write = |out: &mut [u8]| V::report(pair, out);
        match &self.report {
            Some(report) => report.replay(&write, tally),
            None => replay_refused(&write, tally),
        }
    }
}
