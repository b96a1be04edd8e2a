// The sizes of files.
ghost use Rattle.std.specs.Prelude.{◌≡◌, ◌<◌};

use std::fmt;

// A file of bytes.
#[derive(Clone, Copy)]
pub struct Bytes<'a> {
    pub name: &'a str,
    pub bytes: usize,
}

impl<'a> Bytes<'a> {
    // So many bytes in the file of this name.
    pub fn new(name: &'a str, bytes: usize) -> Self
        ensures name { result.name.now ≡ name.now }
        ensures bytes { result.bytes ≡ bytes }
    {
        Self { name, bytes }
    }
}

impl fmt::Display for Bytes<'_> {
    fn fmt<W: fmt::Write>(&self, f: &mut fmt::Formatter<W>) -> fmt::Result {
        let Bytes { name, bytes } = *self;
        write!(f, "  {name:<10}{bytes:>10} bytes")
    }
}

// A file of records of `width` bytes each, which it may hold in part.
#[derive(Clone, Copy)]
pub struct Records<'a> {
    pub name: &'a str,
    pub bytes: usize,
    pub width: usize,
    pub ghost whole: { 0 < width },
}

impl<'a> Records<'a> {
    // Records of `width` bytes each, in so many bytes.
    pub fn new(name: &'a str, bytes: usize, width: usize) -> Self
        requires { 0 < width }
        ensures name { result.name.now ≡ name.now }
        ensures bytes { result.bytes ≡ bytes }
        ensures width { result.width ≡ width }
    {
        Self { name, bytes, width }
    }
}

impl fmt::Display for Records<'_> {
    fn fmt<W: fmt::Write>(&self, f: &mut fmt::Formatter<W>) -> fmt::Result {
        let Records { name, bytes, width } = *self;
        let count = bytes / width;
        let over = bytes % width;
        write!(
            f,
            "  {name:<10}{bytes:>10} bytes, {count:>8} of {width} bytes each"
        )?;
        if over > 0 {
            write!(f, ", and {over} over")?;
        }
        Ok(())
    }
}
