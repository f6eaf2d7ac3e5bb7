// The values of a recorded answer, beside the verdict call at every selector and the values call with buffers of several lengths.
use crate::buffers::{self, put};
use crate::calls::{Pair, Verdict};
use crate::counting::Tally;
use crate::file::{Broken, read_u8, read_u32};
use std::io::Read;

// The places of a buffer: the most values that an answer may have, and some past them. What is lent to the call is a part at its start, and
// the rest must stay as it was.
const ROOM: usize = 72;
// What a place holds before the call: a number that no answer has.
const BLANK: u64 = 11936128518282651045;

#[derive(Clone, Copy)]
pub struct Values {
    // By selector; 0 past those of the answer.
    recorded: [u64; ROOM],
    // How many selectors the answer has: fixed memory needs it beside the array.
    all: usize,
}

impl Values {
    // The number, the side, the bump and the result, of a byte each, and then the length and the counts, of four.
    pub fn read(file: &mut impl Read, counts: usize) -> Result<Values, Broken> {
        let all = counts.saturating_add(5);
        let mut recorded = [0; ROOM];
        for value in recorded.iter_mut().take(4) {
            *value = u64::from(read_u8(file)?);
        }
        for value in recorded.iter_mut().take(all).skip(4) {
            *value = u64::from(read_u32(file)?);
        }
        Ok(Values { recorded, all })
    }

    pub fn number(&self) -> u64 {
        self.recorded[0]
    }

    pub fn length(&self) -> usize {
        self.recorded[4] as usize
    }

    // Every selector, and then two beyond them and the largest, which give 0.
    pub fn replay_selectors<V: Verdict>(&self, pair: Pair<'_>, tally: &mut Tally) {
        let all = self.all as u64;
        for (selector, value) in (0..all).zip(self.recorded) {
            tally.compare(V::value(pair, selector), value);
        }
        for selector in [all, all.saturating_add(1), u64::MAX] {
            tally.compare(V::value(pair, selector), 0);
        }
    }

    // The values in no place, in the number's, in those before the counts, in as many as there are, and in one more, which gets 0.
    pub fn replay<V: Verdict>(&self, pair: Pair<'_>, tally: &mut Tally) {
        for places in [0, 1, 5, self.all, self.all.saturating_add(1)] {
            tally.tell(self.differs::<V>(pair, places, places));
        }
        if tally.falsifies() {
            self.replay_false::<V>(pair, tally);
        }
    }

    // A false number, a false value past the counts and a place too few, each of which must be told.
    fn replay_false<V: Verdict>(&self, pair: Pair<'_>, tally: &mut Tally) {
        let more = self.all.saturating_add(1);
        for (selector, value) in [(0, u64::from(self.number() == 0)), (self.all, 1)] {
            let mut wrong = *self;
            put(&mut wrong.recorded, selector, value);
            tally.falsify(wrong.differs::<V>(pair, more, more));
        }
        tally.falsify(self.differs::<V>(pair, more, self.all));
    }

    // Whether the call, lent so many places, returns another number than the recorded one or leaves another buffer than one in which so
    // many are written.
    fn differs<V: Verdict>(&self, pair: Pair<'_>, lent: usize, written: usize) -> bool {
        let mut left = self.recorded;
        for place in left.iter_mut().skip(written) {
            *place = BLANK;
        }
        let call = |out: &mut [u64]| V::values(pair, out);
        buffers::differs(&call, &mut [BLANK; ROOM], lent, self.number(), &left)
    }
}
