// The tasks that a command line asks for, and the files of each.
//
// A task's word begins a task, and the arguments up to the next such word are its files; `show` takes a record's id before them. A task
// without a file reads standard input.
use std::env::FillError;
use std::io::Write;
use std::rt::Env;
use std::{io, str};

// A word that begins a task.
#[derive(Clone, Copy)]
pub enum TaskWord {
    List,
    Scale,
    Show,
    Inspect,
}

// What is done over a file.
#[derive(Clone, Copy)]
pub enum Task {
    List,
    Scale,
    // With the id of the record to show.
    Show(u32),
    Inspect,
}

// What an argument may be.
#[derive(Clone, Copy)]
pub enum Argument {
    Task(TaskWord),
    Help,
    // Any other: a file's name, or an id.
    Other,
}

impl TaskWord {
    fn purpose(self) -> &'static str {
        match self {
            TaskWord::List =>
                "list [FILE..]: prints how many records each file has and its largest id, then a line a record: id, keyword, and where its arguments begin and end",
            TaskWord::Scale =>
                "scale [FILE..]: prints how many millimetres a file's unit of length has, how many radians its unit of angle, its tolerance, and whether it says so itself",
            TaskWord::Show =>
                "show ID [FILE..]: prints the record that is served for an id (12 or #12): its keyword, where its arguments stand, its parameters and parts",
            TaskWord::Inspect =>
                "inspect [FILE..]: prints a line a file: accepted, with counts, or refused, with the number, the place and the words",
        }
    }

    // What the word is for.
    pub fn usage<W: Write>(self, out: &mut W) -> io::Result<()> {
        writeln!(out, "usage: {}", self.purpose())?;
        usage_end(out)
    }
}

// What all words are for.
pub fn all_usage<W: Write>(out: &mut W) -> io::Result<()> {
    for word in [
        TaskWord::List,
        TaskWord::Scale,
        TaskWord::Show,
        TaskWord::Inspect,
    ] {
        writeln!(out, "usage: {}", word.purpose())?;
    }
    usage_end(out)
}

fn usage_end<W: Write>(out: &mut W) -> io::Result<()> {
    writeln!(
        out,
        "without a file, and for the name -, standard input is read; a refusal is NUMBER/REASON@PLACE by document 01, and its words"
    )
}

// What an argument is; none where there is no such one. One that is longer than its room is taken for a file's name.
pub fn argument_at<R: Env>(rt: &R, at: usize) -> Option<Argument> {
    let mut room = [0u8; 4096];
    let n = input::argument(rt, at, &mut room)?;
    Some(match &room[..n] {
        b"-h" | b"--help" => Argument::Help,
        b"list" => Argument::Task(TaskWord::List),
        b"scale" => Argument::Task(TaskWord::Scale),
        b"show" => Argument::Task(TaskWord::Show),
        b"inspect" => Argument::Task(TaskWord::Inspect),
        _ => Argument::Other,
    })
}

// The first argument from this one on that is no file's name: a task's word, or none.
pub fn files_end<R: Env>(rt: &R, from: usize) -> usize {
    (from..usize::MAX)
        .find(|i| !is_file(rt, *i))
        .unwrap_or(usize::MAX)
}

fn is_file<R: Env>(rt: &R, at: usize) -> bool {
    matches!(
        argument_at(rt, at),
        Some(Argument::Help) | Some(Argument::Other)
    )
}

// The task of a word that this argument stands behind; none where help is asked for, or `show` has no id.
pub fn task_of<R: Env>(rt: &R, word: TaskWord, at: usize) -> Option<Task> {
    if let Some(Argument::Help) = argument_at(rt, at) {
        return None;
    }
    Some(match word {
        TaskWord::List => Task::List,
        TaskWord::Scale => Task::Scale,
        TaskWord::Show => Task::Show(id_at(rt, at)?),
        TaskWord::Inspect => Task::Inspect,
    })
}

fn id_at<R: Env>(rt: &R, at: usize) -> Option<u32> {
    let mut room = [0u8; 4096];
    let n = input::argument(rt, at, &mut room)?;
    id(&room[..n])
}

// The id that is given as `12` or `#12`, 4294967295 at most.
fn id(t: &[u8]) -> Option<u32> {
    let digits = t.strip_prefix(b"#".as_slice()).unwrap_or(t);
    if !digits.iter().all(|d| d.is_ascii_digit()) {
        return None;
    }
    str::from_utf8(digits).ok()?.parse().ok()
}
