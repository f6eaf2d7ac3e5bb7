// Image files, read as far as their bytes decide anything.
ghost use Rattle.std.specs.Prelude.{◌≡◌, ◌≤◌, length, take};

use std::fs;
use std::io::Read;
use std::rt::Files;

// Room for an image, and for one byte more, by which a longer file is told: it is refused by 1, and its other bytes are not read.
pub const ROOM: usize = 32769;

// The start of a file, and how many bytes it has; none if the file can't be opened or read. A path is text: one that is not UTF-8 can't be
// opened.
fn read_start(files: &impl Files, path: &[u8], image: &mut [u8]) -> usize
    ensures { (result ≤ length image.new) × (result ≡ length (take result image.new)) }
{
    let Ok(path) = str::from_utf8(path) else {
        return 0;
    };
    match fs::open(files, path) {
        Ok(file) => read_opened(file, image),
        Err(_) => 0,
    }
}

// The start of a file, in a buffer for an image.
pub fn read<'a>(files: &impl Files, path: &[u8], image: &'a mut [u8]) -> &'a [u8] {
    let n = read_start(files, path, image);
    &image[..n]
}

fn read_opened(mut file: impl Read + Drop, image: &mut [u8]) -> usize
    ensures { (result ≤ length image.new) × (result ≡ length (take result image.new)) }
{
    let mut rest = &mut *image;
    // Each read but the last gives a byte or more.
    for _ in 0..rest.len() {
        if rest.is_empty() {
            break;
        }
        match file.read(rest) {
            Ok(0) => break,
            Ok(n) => rest = &mut rest[n..],
            Err(_) => return 0,
        }
    }
    let left = rest.len();
    // Never less than 0: the rest is a part of the image, which the loop doesn't say.
    image.len().saturating_sub(left)
}
