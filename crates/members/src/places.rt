// The places of items in any bytes. Items have no fixed size: where one ends is found by its shape, so that they are met from the front.
ghost use Rattle.parts.specs.Promise.{ItemsHere};
ghost use Rattle.members.specs.Props.{items_prop};

use crate::items::item_end;
use parts::{Run, Shape};

// So many items of a shape in some bytes, one after the other.
#[derive(Clone, Copy)]
pub struct Places<'a> {
    pub bytes: &'a [u8],
    pub shape: Shape,
    pub run: Run,
    pub ghost here: { ItemsHere shape bytes.now run.count run.start } by { items_prop shape bytes.now run.count run.start },
}

// It gives the place of each in turn.
impl<'a> Iterator for Places<'a> {
    type Item = usize;

    ghost use Rattle.std.specs.Iterator.{at_most};
    ghost use Rattle.members.specs.Places.{Steps};

    ghost next_gives = { Steps };

    ghost remaining = { λ places. at_most places.run.count };

    #[tactic(auto, using(crate::proofs::Runs::stepping))]
    fn next(&mut self) -> Option<usize> {
        if self.run.count == 0 {
            return None;
        }
        let bytes = self.bytes;
        let shape = self.shape;
        let at = self.run.start;
        let run = Run {
            start: item_end(bytes, shape, at),
            count: self.run.count - 1,
        };
        *self = Places { bytes, shape, run };
        Some(at)
    }
}
