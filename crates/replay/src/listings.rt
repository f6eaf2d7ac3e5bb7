// The listing calls on one image beside what is recorded of it.
use crate::counting::Tally;
use crate::file::{Broken, read_u32};
use crate::texts::{ROOM, Text, replay_refused};
use std::io::Read;

// The listing's verdict for a buffer of so many bytes: number, side and length; a refusal is Major and Breaking; and selectors that give 0.
fn replay_verdict(image: &[u8], room: u64, number: u64, length: u64, tally: &mut Tally) {
    let refused = u64::from(number != 0);
    let values = [
        (0, number),
        (1, refused),
        (2, 2 * refused),
        (3, refused),
        (4, length),
        (5, 0),
        (u64::MAX, 0),
    ];
    for (selector, value) in values {
        let got = vexil_compat::vexil_compat_listing_verdict(image, room, selector);
        tally.compare(got, value);
    }
}

// The listing of an image to which the reader gives a number.
pub fn replay_listing(
    file: &mut impl Read,
    image: &[u8],
    number: u64,
    tally: &mut Tally,
) -> Result<(), Broken> {
    let size = read_u32(file)?;
    let mut buffer = [0; ROOM];
    let text = Text::read(file, size as usize, &mut buffer)?;
    let list = |out: &mut [u8]| vexil_compat::vexil_compat_listing(image, out);
    if number != 0 {
        for room in [0, u64::MAX] {
            replay_verdict(image, room, number, 0, tally);
        }
        replay_refused(&list, tally);
        return Ok(());
    }
    let length = u64::from(size);
    replay_verdict(image, length, 0, length, tally);
    // 12 with one byte too few; no buffer is too short for an empty listing.
    if let Some(short) = length.checked_sub(1) {
        replay_verdict(image, short, 12, 0, tally);
    }
    text.replay(&list, tally);
    Ok(())
}
