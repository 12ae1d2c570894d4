// Where a place stands in a file, as an editor counts: the line, and the byte in it. For the programs.
#![tactic(auto)]

ghost use Rattle.std.specs.Prelude.{◌≡◌};
ghost use Rattle.line_column.specs.Spot.{breaks, bytes_after_break};

// Both from 0.
#[derive(Clone, Copy, PartialEq, Eq)]
pub struct LineColumn {
    pub line: usize,
    pub column: usize,
}

// The place behind these bytes, the first of a file. A line ends with an LF.
pub fn spot(before: &[u8]) -> LineColumn
    ensures line_value { result.line ≡ breaks 0 before.now }
    ensures column_value { result.column ≡ bytes_after_break 0 before.now }
{
    let mut line = 0;
    let mut column = 0;
    for b in before {
        if *b == b'\n' {
            line += 1;
            column = 0;
        } else {
            column += 1;
        }
    }
    LineColumn { line, column }
}
