// A run through the pairs of the file.
use crate::answers::Answer;
use crate::calls::{Imports, Mended, Pair, Plain, Verdict};
use crate::counting::Tally;
use crate::file::{Broken, read_bytes, read_u8, read_u32};
use crate::listings::replay_listing;
use crate::texts::ROOM;
use std::io::{self, Read, Write};

// The largest image that the file may hold.
const IMAGE_ROOM: usize = 40960;

// The number that the reader gives an image: 0, or its refusal.
fn number_of(image: &[u8]) -> u64 {
    match reader::read_image(image) {
        Ok(()) => 0,
        Err(refusal) => u64::from(refusal.number()),
    }
}

// The name of a pair that differs.
fn tell(rt: &impl Print, name: &[u8]) -> io::Result<()> {
    let mut out = io::writer(rt);
    out.write_all(b"differs: ")?;
    out.write_all(name)?;
    out.write_all(b"\n")
}

// The file, how many counts its answers have, and what is counted.
#[derive(Drop)]
pub struct Run<R> {
    file: R,
    counts: usize,
    tally: Tally,
}

impl<R: Read> Run<R> {
    pub fn new(file: R, counts: usize) -> Run<R> {
        Run {
            file,
            counts,
            tally: Tally::default(),
        }
    }

    // All pairs, and then the end of the file.
    pub fn replay(&mut self, rt: &impl Print, pairs: u32) -> Result<Tally, Broken> {
        for _ in 0..pairs {
            self.replay_pair(rt)?;
        }
        match read_u8(&mut self.file) {
            Ok(_) => Err(Broken),
            Err(_) => Ok(self.tally),
        }
    }

    // One pair: its name, its images, and what is recorded of them.
    fn replay_pair(&mut self, rt: &impl Print) -> Result<(), Broken> {
        let size = read_u8(&mut self.file)?;
        let mut name = [0; 255];
        let name = read_bytes(&mut self.file, usize::from(size), &mut name)?;
        let mut old = [0; IMAGE_ROOM];
        let old = self.read_image(&mut old)?;
        let mut new = [0; IMAGE_ROOM];
        let new = self.read_image(&mut new)?;
        let before = self.tally.differences();
        self.replay_images([old, new])?;
        self.replay_answers(Pair { old, new })?;
        if self.tally.differences() != before {
            let _told = tell(rt, name);
        }
        self.tally.count_pair();
        Ok(())
    }

    fn read_image<'a>(&mut self, room: &'a mut [u8]) -> Result<&'a [u8], Broken> {
        let size = read_u32(&mut self.file)?;
        read_bytes(&mut self.file, size as usize, room)
    }

    // The reader's numbers of both images, and then their listings.
    fn replay_images(&mut self, images: [&[u8]; 2]) -> Result<(), Broken> {
        for image in images {
            let recorded = read_u8(&mut self.file)?;
            self.tally.compare(number_of(image), u64::from(recorded));
        }
        for image in images {
            replay_listing(&mut self.file, image, number_of(image), &mut self.tally)?;
        }
        Ok(())
    }

    // The answer of 01, and then that with imports and the mended one.
    fn replay_answers(&mut self, pair: Pair<'_>) -> Result<(), Broken> {
        let mut buffer = [0; ROOM];
        let answer = Answer::read(&mut self.file, self.counts, &mut buffer)?;
        answer.replay::<Plain>(pair, &mut self.tally);
        self.replay_further::<Imports>(pair, &answer)?;
        self.replay_further::<Mended>(pair, &answer)
    }

    // The answer of a further verdict: that of 01, which is given, or another, which follows.
    fn replay_further<V: Verdict>(
        &mut self,
        pair: Pair<'_>,
        answer: &Answer<'_>,
    ) -> Result<(), Broken> {
        if read_u8(&mut self.file)? == 0 {
            answer.replay::<V>(pair, &mut self.tally);
        } else {
            let mut buffer = [0; ROOM];
            let own = Answer::read(&mut self.file, self.counts, &mut buffer)?;
            own.replay::<V>(pair, &mut self.tally);
        }
        Ok(())
    }
}
