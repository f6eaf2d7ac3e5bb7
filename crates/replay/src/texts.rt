// A call that writes a text into a buffer, beside what is recorded of it, with buffers of several lengths.
use crate::buffers::{self, put};
use crate::counting::Tally;
use crate::file::{Broken, read_bytes};
use std::io::Read;

// The bytes of a buffer: the longest text of the file, and some past it. What is lent to the call is a part at its start, and the rest
// must stay as it was too.
pub const ROOM: usize = 80064;
// What a buffer holds before the call.
const BLANK: u8 = 165;
// So many bytes more than the text has.
const SPARE: usize = 32;

// A text as a call leaves it.
#[derive(Clone, Copy)]
pub struct Text<'a> {
    length: usize,
    // The whole buffer, since what stands past the text is compared too. It is lent, and no text is copied.
    buffer: &'a [u8],
}

impl<'a> Text<'a> {
    // A text of the file, in a buffer of ROOM bytes.
    pub fn read(
        file: &mut impl Read,
        length: usize,
        buffer: &'a mut [u8],
    ) -> Result<Text<'a>, Broken> {
        buffer.fill(BLANK);
        read_bytes(file, length, buffer)?;
        Ok(Text { length, buffer })
    }

    // Whether the call, lent so many bytes, returns another length or leaves another buffer.
    fn differs<F: Fn(&mut [u8]) -> u64>(&self, call: &F, lent: usize) -> bool
        requires { F.IsAlwaysCallable call.now }
    {
        let mut out = [BLANK; ROOM];
        buffers::differs(call, &mut out, lent, self.length as u64, self.buffer)
    }

    // In a buffer that is larger, exact, one byte short and empty; no buffer is too short for an empty text.
    pub fn replay<F: Fn(&mut [u8]) -> u64>(&self, call: &F, tally: &mut Tally)
        requires { F.IsAlwaysCallable call.now }
    {
        for lent in [self.length.saturating_add(SPARE), self.length] {
            tally.tell(self.differs(call, lent));
        }
        if let Some(short) = self.length.checked_sub(1) {
            replay_untouched(call, [short, 0], tally);
        }
        if tally.falsifies() {
            self.replay_false(call, tally);
        }
    }

    // A false length, a false byte past the text and a false byte of it, each of which must be told. Kept apart, as
    // `replay_untouched` is, so that its buffers are on the stack only as long as it runs.
    #[inline(never)]
    fn replay_false<F: Fn(&mut [u8]) -> u64>(&self, call: &F, tally: &mut Tally)
        requires { F.IsAlwaysCallable call.now }
    {
        let lent = self.length.saturating_add(SPARE);
        let longer = Text {
            length: self.length.saturating_add(1),
            buffer: self.buffer,
        };
        tally.falsify(longer.differs(call, lent));
        for at in [self.length, 0] {
            let mut bytes = [BLANK; ROOM];
            copy(&mut bytes, self.buffer);
            put(&mut bytes, at, 1);
            let wrong = Text {
                length: self.length,
                buffer: &bytes,
            };
            tally.falsify(wrong.differs(call, lent));
        }
    }
}

// The bytes of a buffer into another.
fn copy(to: &mut [u8], from: &[u8]) {
    for (place, byte) in to.iter_mut().zip(from) {
        *place = *byte;
    }
}

// Lent so many bytes, either way, the call refuses: it returns 0 and leaves the buffer as it was.
#[inline(never)]
fn replay_untouched<F: Fn(&mut [u8]) -> u64>(call: &F, rooms: [usize; 2], tally: &mut Tally)
    requires { F.IsAlwaysCallable call.now }
{
    let refusal = Text {
        length: 0,
        buffer: &[BLANK; ROOM],
    };
    for lent in rooms {
        tally.tell(refusal.differs(call, lent));
    }
}

// What is refused with any buffer.
pub fn replay_refused<F: Fn(&mut [u8]) -> u64>(call: &F, tally: &mut Tally)
    requires { F.IsAlwaysCallable call.now }
{
    replay_untouched(call, [SPARE, 0], tally);
}
