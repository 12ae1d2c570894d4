// The refusals of document 01, as the Rust's error.rs has them in one place.
//
// A refusal is one case of `Fault`, with the values that the case needs. What number, reason and place document 01
// gives to it is said once, by `told` of specs/Refusal.antt; the three methods below compute its parts.
#![tactic(auto)]

ghost use Rattle.std.specs.Prelude.{◌≡◌};
ghost use Rattle.error.specs.Refusal.{told, told_reason};

// Why a record is bad, in the order in which it is tested. Each is 7, with a reason of its own.
#[derive(Clone, Copy, PartialEq, Eq)]
pub enum Reason {
    // 1: a header record without `(`.
    NoHeaderParen,
    // 2: no `#`.
    NoHash,
    // 3: an id above 4294967295.
    LargeId,
    // 4: no digits.
    NoDigits,
    // 5: no `=`.
    NoEqual,
    // 6: nothing after the `=`.
    NoValue,
    // 7: no `(`.
    NoParen,
}

impl Reason {
    // The reason's number in document 01's table.
    pub fn number(self) -> u8
        ensures { result ≡ told_reason self }
    {
        match self {
            Reason::NoHeaderParen => 1,
            Reason::NoHash => 2,
            Reason::LargeId => 3,
            Reason::NoDigits => 4,
            Reason::NoEqual => 5,
            Reason::NoValue => 6,
            Reason::NoParen => 7,
        }
    }
}

#[derive(Clone, Copy, PartialEq, Eq)]
pub enum Fault {
    // 1: no Part 21 marker.
    NoMarker,
    // 2: file too long.
    TooLong,
    // 3: comment open, at its `/`.
    OpenComment(usize),
    // 4: string open, at its first quote.
    OpenString(usize),
    // 5: record without `;`, at its start.
    NoEnd(usize),
    // 6: parenthesis open, at its `(`.
    OpenParen(usize),
    // 7: bad record, with its reason's number, at its start.
    BadRecord(u8, usize),
    // 8: no row left, at the record's start.
    NoRow(usize),
    // 9: span or kept row outside the file or backwards; left-over bytes or a bad mark in kept rows.
    OutOfFile,
    // 10: no parameter left, at the reader's place.
    NoParameter(usize),
    // 11: literal open in a parameter, at its quote.
    OpenLiteral(usize),
    // 12: parameter of another type, at the parameter's or item's start.
    WrongType(usize),
    // 13: real outside the class, at the parameter's or item's start.
    OutsideClass(usize),
    // 14: arguments asked of an id with no record.
    NoRecord,
    // 15: unit chain too deep, at the unit record's argument start.
    TooDeep(usize),
    // 16: output too short, at the parameter's start, or 0 for kept rows.
    TooShort(usize),
}

impl Fault {
    // The refusal's number in document 01's table.
    pub fn number(self) -> u8
        ensures { result ≡ (told self).number }
    {
        match self {
            Fault::NoMarker => 1,
            Fault::TooLong => 2,
            Fault::OpenComment(_) => 3,
            Fault::OpenString(_) => 4,
            Fault::NoEnd(_) => 5,
            Fault::OpenParen(_) => 6,
            Fault::BadRecord(_, _) => 7,
            Fault::NoRow(_) => 8,
            Fault::OutOfFile => 9,
            Fault::NoParameter(_) => 10,
            Fault::OpenLiteral(_) => 11,
            Fault::WrongType(_) => 12,
            Fault::OutsideClass(_) => 13,
            Fault::NoRecord => 14,
            Fault::TooDeep(_) => 15,
            Fault::TooShort(_) => 16,
        }
    }

    // The reason of refusal 7, and 0 of every other.
    pub fn reason(self) -> u8
        ensures { result ≡ (told self).reason }
    {
        match self {
            Fault::BadRecord(why, _) => why,
            _ => 0,
        }
    }

    // The refusal's place in the input.
    pub fn place(self) -> usize
        ensures { result ≡ (told self).place }
    {
        match self {
            Fault::NoMarker | Fault::TooLong | Fault::OutOfFile | Fault::NoRecord => 0,
            Fault::OpenComment(at)
            | Fault::OpenString(at)
            | Fault::NoEnd(at)
            | Fault::OpenParen(at)
            | Fault::BadRecord(_, at)
            | Fault::NoRow(at)
            | Fault::NoParameter(at)
            | Fault::OpenLiteral(at)
            | Fault::WrongType(at)
            | Fault::OutsideClass(at)
            | Fault::TooDeep(at)
            | Fault::TooShort(at) => at,
        }
    }
}
