// Texts that fit a column, words, and where a listing is cut.
ghost use Rattle.std.specs.Prelude.{◌≤◌};

use std::fmt;

// A longer listing is cut here.
const LINES: usize = 200;

// A text cut after so many characters. Control characters are shown as '?', so that none breaks a line.
#[derive(Clone, Copy)]
pub struct Shown<'a> {
    pub text: &'a str,
    pub room: usize,
}

impl fmt::Display for Shown<'_> {
    fn fmt<W: fmt::Write>(&self, f: &mut fmt::Formatter<W>) -> fmt::Result {
        for c in self.text.chars().take(self.room) {
            f.write_char(if c.is_control() { '?' } else { c })?;
        }
        if self.text.chars().nth(self.room).is_some() {
            f.write_str("..")?;
        }
        Ok(())
    }
}

// A value that is printed as a word.
#[derive(Clone, Copy)]
pub(crate) struct Word<T>(pub T);

impl fmt::Display for Word<bool> {
    fn fmt<W: fmt::Write>(&self, f: &mut fmt::Formatter<W>) -> fmt::Result {
        f.pad(if self.0 { "yes" } else { "no" })
    }
}

// A listing of so many things: its first lines are printed, and its last one tells of the others.
#[derive(Clone, Copy)]
pub(crate) struct Cut {
    pub count: usize,
    pub things: &'static str,
}

impl Cut {
    // How many have a line of their own.
    pub(crate) fn listed(self) -> usize
        ensures within { result ≤ self.count }
        ensures few { result ≤ LINES }
    {
        self.count.min(LINES)
    }
}

impl fmt::Display for Cut {
    fn fmt<W: fmt::Write>(&self, f: &mut fmt::Formatter<W>) -> fmt::Result {
        let Cut { count, things } = *self;
        let more = count - self.listed();
        if more > 0 {
            writeln!(f, "  .. and {more} more {things}, not listed")?;
        }
        Ok(())
    }
}
