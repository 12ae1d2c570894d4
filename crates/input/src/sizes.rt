// The sizes of the programs' rooms, all of them: which of them a program takes is chosen by its stack limit.
//
// A header record takes three bytes or more of a file and four numbers, a data record six bytes, six numbers and an id slot; kept, a record takes 24
// bytes. A byte of a string gives three at most. A reference in a list takes three bytes, another number two, a row of a grid three. A file that
// fills its room is too large, so that the room has a byte more than the largest file that is read.

use std::alloc::{AllocError, Global};

// A room of so many zeros, or of another value.
pub fn room<T: Copy>(alloc: Global, zero: T, n: usize) -> Result<Vec<T>, AllocError> {
    vec![in alloc; zero; n]
}

// How many bytes of a file, and how many numbers of header rows, data rows and id slots there is room for.
#[derive(Clone, Copy)]
pub struct Sizes {
    pub file: usize,
    pub headers: usize,
    pub rows: usize,
    pub slots: usize,
}

// What else a case needs room for: texts, the references of lists, other numbers of lists, and the ends of a grid's rows.
#[derive(Clone, Copy)]
pub struct ValueSizes {
    pub chars: usize,
    pub refs: usize,
    pub numbers: usize,
    pub ends: usize,
}

// The rooms for header rows, data rows and id slots.
#[derive(Drop)]
pub struct TableRooms {
    pub headers: Vec<u32>,
    pub rows: Vec<u32>,
    pub slots: Vec<u64>,
}

impl TableRooms {
    pub fn new(alloc: Global, n: Sizes) -> Result<TableRooms, AllocError> {
        Ok(TableRooms {
            headers: room(alloc, 0, n.headers)?,
            rows: room(alloc, 0, n.rows)?,
            slots: room(alloc, 0, n.slots)?,
        })
    }
}

// The rooms for texts, references, integers, reals and row ends.
#[derive(Drop)]
pub struct ValueRooms {
    pub chars: Vec<u8>,
    pub refs: Vec<u32>,
    pub ints: Vec<i64>,
    pub reals: Vec<f64>,
    pub ends: Vec<usize>,
}

impl ValueRooms {
    pub fn new(alloc: Global, n: ValueSizes) -> Result<ValueRooms, AllocError> {
        Ok(ValueRooms {
            chars: room(alloc, 0, n.chars)?,
            refs: room(alloc, 0, n.refs)?,
            ints: room(alloc, 0, n.numbers)?,
            reals: room(alloc, 0.0, n.numbers)?,
            ends: room(alloc, 0, n.ends)?,
        })
    }
}

// What is read of standard input at once, and written of standard output.
pub const CHUNK: usize = 65536;

// For a case of 256 KiB, whatever it holds. These fit a stack of 8 MiB.
pub const SMALL: Sizes = Sizes {
    file: 262145,
    headers: 349528,
    rows: 262146,
    slots: 43691,
};

pub const SMALL_VALUES: ValueSizes = ValueSizes {
    chars: 786432,
    refs: 87382,
    numbers: 131073,
    ends: 87382,
};

// Rows as they are kept are put into the room for texts, and read again into that for references. Of lists and grids one number is read.
pub const SMALL_KEPT: ValueSizes = ValueSizes {
    chars: 1048584,
    refs: SMALL.rows,
    numbers: 1,
    ends: 1,
};

// For a case of 1 MiB, whatever it holds.
pub const MIDDLE: Sizes = Sizes {
    file: 1048577,
    headers: 1398104,
    rows: 1048578,
    slots: 174763,
};

pub const MIDDLE_VALUES: ValueSizes = ValueSizes {
    chars: 3145728,
    refs: 349526,
    numbers: 524289,
    ends: 349526,
};

// 4,096 header records, for a file of 1 MiB on a stack of 8 MiB.
pub const FEW: Sizes = Sizes {
    file: MIDDLE.file,
    headers: 16384,
    rows: MIDDLE.rows,
    slots: MIDDLE.slots,
};

// For a file of 64 MiB with a record for every 24 bytes, and 1,048,576 header records.
pub const LARGE: Sizes = Sizes {
    file: 67108865,
    headers: 4194304,
    rows: 16777218,
    slots: 2796203,
};
