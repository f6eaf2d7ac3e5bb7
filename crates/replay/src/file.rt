// The file of recorded answers, read in order. tools/oracle/README.md describes it.
use std::fmt;
use std::io::{self, Read};

// The file is not as it should be.
#[derive(Clone, Copy)]
pub struct Broken;

impl fmt::Display for Broken {
    fn fmt<W: fmt::Write>(&self, f: &mut fmt::Formatter<W>) -> fmt::Result {
        write!(f, "the file is not as it should be")
    }
}

impl From<io::Error> for Broken {
    fn from(_error: io::Error) -> Broken {
        Broken
    }
}

// The next N bytes.
pub fn read_array<const N: usize>(file: &mut impl Read) -> io::Result<[u8; N]> {
    let mut bytes = [0; N];
    file.read_exact(&mut bytes)?;
    Ok(bytes)
}

// A number of one byte.
pub fn read_u8(file: &mut impl Read) -> io::Result<u8> {
    Ok(u8::from_le_bytes(read_array(file)?))
}

// A number of four bytes, the lowest first.
pub fn read_u32(file: &mut impl Read) -> io::Result<u32> {
    Ok(u32::from_le_bytes(read_array(file)?))
}

// The next bytes, in a buffer that has room for so many: a length of the file takes no more memory than that.
pub fn read_bytes<'a>(
    file: &mut impl Read,
    length: usize,
    room: &'a mut [u8],
) -> Result<&'a [u8], Broken> {
    let bytes = room.get_mut(..length).ok_or(Broken)?;
    file.read_exact(bytes)?;
    Ok(bytes)
}
