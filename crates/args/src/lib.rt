// The argument reader as one thing, which carries the file, its place and its end.
//
// As `Args` of the Rust's value.rs. Each reader lends its place and end to the function of the crates below that does the work. They are
// thin, and what can be said without the struct stands below it.
#![tactic(auto)]

ghost use Rattle.std.specs.Prelude.{◌≡◌};
ghost use Rattle.reals.specs.Scalar.{reference_of, whole_of, real_of};
ghost use Rattle.params.specs.Skips.{skip_of, skips_of, empty_of};
ghost use Rattle.params.specs.Answer.{told_read};
ghost use Rattle.scalars.specs.Scalars.{measure_of, option_of, truth_of};
ghost use Rattle.scalars.specs.Answer.{next_of, told_read_real, told_read_opt_real};
ghost use Rattle.args.specs.CarryingReader.{OpensReader, Forwards, Fills, FillsBoth};
ghost use Rattle.args.specs.Core.{next_name, next_text, text_room, next_list, list_room, real_room, next_grid, grid_room, real_grid_room, ends_room};

use error::Fault;
use grids::Size;
use params::{Span, State};
use scalars::Truth;
use words::Text;

#[derive(Clone, Copy)]
pub struct Args<'a> {
    pub file: &'a [u8],
    pub at: State,
}

// What opening a reader answers, and the reader: after 9 one that has nothing to read.
#[derive(Clone, Copy)]
pub struct Opening<'a> {
    pub opened: Result<State, Fault>,
    pub args: Args<'a>,
}

impl<'a> Args<'a> {
    // A reader of the file from a place up to an end.
    pub fn new(file: &'a [u8], place: usize, end: usize) -> Opening<'a>
        ensures { OpensReader file.entry place end result }
    {
        let opened = params::new(file, place, end);
        let at = opened.unwrap_or(State { place: 0, end: 0 });
        Opening {
            opened,
            args: Args { file, at },
        }
    }

    // The reader's place.
    pub fn offset(self) -> usize
        ensures { result ≡ self.entry.at.place }
    {
        self.at.place
    }

    // Whether no parameter is left; the reader goes past the trivia.
    pub fn is_empty(&mut self) -> Result<bool, Fault>
        ensures { Forwards empty_of self.old self.new (told_read result self.new.at) }
    {
        params::is_empty(self.file, &mut self.at)
    }

    // Goes past one parameter.
    pub fn skip(&mut self) -> Result<(), Fault>
        ensures { Forwards skip_of self.old self.new (told_read result self.new.at) }
    {
        params::skip(self.file, &mut self.at)
    }

    // Goes past n parameters, or stops at the first refusal.
    pub fn skip_n(&mut self, n: usize) -> Result<(), Fault>
        ensures { Forwards (skips_of n) self.old self.new (told_read result self.new.at) }
    {
        params::skip_n(self.file, &mut self.at, n)
    }

    pub fn next_ref(&mut self) -> Result<u32, Fault>
        ensures { Forwards (next_of reference_of) self.old self.new (told_read result self.new.at) }
    {
        scalars::next_ref(self.file, &mut self.at)
    }

    pub fn next_opt_ref(&mut self) -> Result<Option<u32>, Fault>
        ensures { Forwards (next_of (option_of reference_of)) self.old self.new (told_read result self.new.at) }
    {
        scalars::next_opt_ref(self.file, &mut self.at)
    }

    pub fn next_i64(&mut self) -> Result<i64, Fault>
        ensures { Forwards (next_of whole_of) self.old self.new (told_read result self.new.at) }
    {
        scalars::next_i64(self.file, &mut self.at)
    }

    pub fn next_f64(&mut self) -> Result<f64, Fault>
        ensures { Forwards (next_of real_of) self.old self.new (told_read_real result self.new.at) }
    {
        scalars::next_f64(self.file, &mut self.at)
    }

    pub fn next_opt_f64(&mut self) -> Result<Option<f64>, Fault>
        ensures { Forwards (next_of (option_of real_of)) self.old self.new (told_read_opt_real result self.new.at) }
    {
        scalars::next_opt_f64(self.file, &mut self.at)
    }

    pub fn next_measure_f64(&mut self) -> Result<f64, Fault>
        ensures { Forwards (next_of measure_of) self.old self.new (told_read_real result self.new.at) }
    {
        scalars::next_measure_f64(self.file, &mut self.at)
    }

    pub fn next_bool(&mut self) -> Result<Truth, Fault>
        ensures { Forwards (next_of truth_of) self.old self.new (told_read result self.new.at) }
    {
        scalars::next_bool(self.file, &mut self.at)
    }

    pub fn next_enum(&mut self) -> Result<Span, Fault>
        ensures { Forwards next_name self.old self.new (told_read result self.new.at) }
    {
        words::next_enum(self.file, &mut self.at)
    }

    // A text in the file, or in the lent room.
    pub fn next_str(&mut self, out: &mut [u8]) -> Result<Text, Fault>
        ensures { Fills next_text text_room self.old self.new out.old out.new (told_read result self.new.at) }
    {
        words::next_str(self.file, &mut self.at, out)
    }

    pub fn next_ref_list(&mut self, out: &mut [u32]) -> Result<usize, Fault>
        ensures { Fills (next_list reference_of) (list_room reference_of) self.old self.new out.old out.new (told_read result self.new.at) }
    {
        lists::next_ref_list(self.file, &mut self.at, out)
    }

    pub fn next_i64_list(&mut self, out: &mut [i64]) -> Result<usize, Fault>
        ensures { Fills (next_list whole_of) (list_room whole_of) self.old self.new out.old out.new (told_read result self.new.at) }
    {
        lists::next_i64_list(self.file, &mut self.at, out)
    }

    pub fn next_f64_list(&mut self, out: &mut [f64]) -> Result<usize, Fault>
        ensures { Fills (next_list real_of) real_room self.old self.new out.old out.new (told_read result self.new.at) }
    {
        lists::next_f64_list(self.file, &mut self.at, out)
    }

    // A grid's numbers and, apart, its row ends.
    pub fn next_ref_grid(&mut self, out: &mut [u32], ends: &mut [usize]) -> Result<Size, Fault>
        ensures { FillsBoth (next_grid reference_of) (grid_room reference_of) (ends_room reference_of)
            self.old self.new out.old out.new ends.old ends.new (told_read result self.new.at) }
    {
        grids::next_ref_grid(self.file, &mut self.at, out, ends)
    }

    pub fn next_f64_grid(&mut self, out: &mut [f64], ends: &mut [usize]) -> Result<Size, Fault>
        ensures { FillsBoth (next_grid real_of) real_grid_room (ends_room real_of)
            self.old self.new out.old out.new ends.old ends.new (told_read result self.new.at) }
    {
        grids::next_f64_grid(self.file, &mut self.at, out, ends)
    }
}

// The functions above with plain parameters: a reader is made, asked once and given up.
pub fn skip_at(file: &[u8], at: &mut State) -> Result<(), Fault>
    ensures { told_read result at.new ≡ skip_of file.now at.old.place at.old.end }
{
    let mut args = Args { file, at: *at };
    let answer = args.skip();
    *at = args.at;
    answer
}

pub fn ref_at(file: &[u8], at: &mut State) -> Result<u32, Fault>
    ensures { told_read result at.new ≡ next_of reference_of file.now at.old.place at.old.end }
{
    let mut args = Args { file, at: *at };
    let answer = args.next_ref();
    *at = args.at;
    answer
}

pub fn i64_at(file: &[u8], at: &mut State) -> Result<i64, Fault>
    ensures { told_read result at.new ≡ next_of whole_of file.now at.old.place at.old.end }
{
    let mut args = Args { file, at: *at };
    let answer = args.next_i64();
    *at = args.at;
    answer
}

pub fn f64_at(file: &[u8], at: &mut State) -> Result<f64, Fault>
    ensures { told_read_real result at.new ≡ next_of real_of file.now at.old.place at.old.end }
{
    let mut args = Args { file, at: *at };
    let answer = args.next_f64();
    *at = args.at;
    answer
}
