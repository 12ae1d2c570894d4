// How answers are shown.
use input::Hex;
use scalars::Truth;
use std::fmt;

// What a reader answers.
#[derive(Clone, Copy)]
pub enum Answer<'a> {
    Whole(i64),
    Place(usize),
    // Put as the 16 hex digits of its bits.
    Real(f64),
    Unset,
    Truth(Truth),
    // A part of the file, or of the room for texts, in hex digits.
    Part(&'a [u8]),
}

impl fmt::Display for Answer<'_> {
    fn fmt<W: fmt::Write>(&self, f: &mut fmt::Formatter<W>) -> fmt::Result {
        match *self {
            Answer::Whole(n) => write!(f, "{n}"),
            Answer::Place(n) => write!(f, "{n}"),
            Answer::Real(x) => write!(f, "{}", Bits(x)),
            Answer::Unset => write!(f, "$"),
            Answer::Truth(Truth::True) => write!(f, "T"),
            Answer::Truth(Truth::False) => write!(f, "F"),
            Answer::Truth(Truth::Unknown) => write!(f, "U"),
            Answer::Part(t) => write!(f, "{}", Part(t)),
        }
    }
}

// The bits of an f64, which stand alike for every NaN.
#[derive(Clone, Copy)]
pub struct Bits(pub f64);

impl fmt::Display for Bits {
    fn fmt<W: fmt::Write>(&self, f: &mut fmt::Formatter<W>) -> fmt::Result {
        let x = self.0;
        if x != x {
            return write!(f, "nan");
        }
        let bits = nearest::bits(x);
        write!(f, "{bits:016x}")
    }
}

// Bytes in hex digits, `-` where there are none.
#[derive(Clone, Copy)]
pub struct Part<'a>(pub &'a [u8]);

impl fmt::Display for Part<'_> {
    fn fmt<W: fmt::Write>(&self, f: &mut fmt::Formatter<W>) -> fmt::Result {
        if self.0.is_empty() {
            return write!(f, "-");
        }
        write!(f, "{}", Hex(self.0))
    }
}

// What stands in a list or a grid.
pub trait Item: Copy {
    fn answer(self) -> Answer<'static>;
}

impl Item for u32 {
    fn answer(self) -> Answer<'static> {
        Answer::Whole(i64::from(self))
    }
}

impl Item for i64 {
    fn answer(self) -> Answer<'static> {
        Answer::Whole(self)
    }
}

impl Item for f64 {
    fn answer(self) -> Answer<'static> {
        Answer::Real(self)
    }
}

impl Item for usize {
    fn answer(self) -> Answer<'static> {
        Answer::Place(self)
    }
}

// Items joined by commas, `-` where there are none.
#[derive(Clone, Copy)]
pub struct Joined<'a, T>(pub &'a [T]);

impl<T: Item> fmt::Display for Joined<'_, T> {
    fn fmt<W: fmt::Write>(&self, f: &mut fmt::Formatter<W>) -> fmt::Result {
        if self.0.is_empty() {
            return write!(f, "-");
        }
        for (k, item) in self.0.iter().enumerate() {
            if k > 0 {
                write!(f, ",")?;
            }
            write!(f, "{}", item.answer())?;
        }
        Ok(())
    }
}
