// Tasks over exchange files, each a word of the command line:
//   list     Lists the records of exchange files
//   scale    Prints the units of exchange files
//   show     Shows one record of exchange files by its id
//   inspect  Says of each exchange file that is named, in a line, whether it is accepted, or where and why it is refused
//
// Nothing here ends where something cannot be written: the output tells of that at the end. So the answers of writing are passed on, and
// let go where a file is done.
#![tactic(auto)]

mod command;
mod found;
mod numerals;
mod rooms;
mod show;
mod shown;

use command::{Argument, Task, TaskWord};
use input::{Output, Source};
use std::alloc::AllocError;
use std::io;
use std::io::Write;
use std::rt::{Env, Files};

// The error is a lack of memory for the rooms.
fn main(rt: HostRuntime) -> Result<(), AllocError> {
    let mut buffer = [0u8; 65536];
    let mut out = Output::new(&rt, &mut buffer);
    tasks(&rt, input::stack_limit(&rt), &mut out)?;
    out.finish();
    Ok(())
}

// Kept: the runtime, the stack limit and the output are passed one by one: the runtime is a handle, and the output holds a copy of it.
//
// Does what the command line asks, one task after the other. Where it does not begin with a task's word, all usage is told, and nothing else
// is done.
fn tasks<R: Env + Files + Input + Print + Eprint + AllocGlobal>(
    rt: &R,
    limit: u64,
    out: &mut Output<'_, '_, R>,
) -> Result<(), AllocError> {
    let mut at = 1;
    for _ in 0..u64::MAX {
        let Some(Argument::Task(word)) = command::argument_at(rt, at) else {
            if at == 1 {
                let _ = command::all_usage(out);
            }
            break;
        };
        at = task_at(rt, limit, word, at.saturating_add(1), out)?;
    }
    Ok(())
}

// Does the task whose word stands before this argument, and answers which argument stands behind its files. Where only its usage is told, its
// files are passed over.
fn task_at<R: Env + Files + Input + Print + Eprint + AllocGlobal>(
    rt: &R,
    limit: u64,
    word: TaskWord,
    at: usize,
    out: &mut Output<'_, '_, R>,
) -> Result<usize, AllocError> {
    let Some(task) = command::task_of(rt, word, at) else {
        let _ = word.usage(out);
        return Ok(command::files_end(rt, at));
    };
    let first = match task {
        Task::Show(_) => at.saturating_add(1),
        _ => at,
    };
    let end = command::files_end(rt, first);
    if end == first {
        let source = Some(Source::Stdin(rt.reader()));
        rooms::read(rt, limit, task, source, out)?;
    }
    for i in first..end {
        over_file(rt, limit, task, i, end - first > 1, out)?;
    }
    Ok(end)
}

// Does a task over the file that an argument names. The file is closed behind it; standard input stays, for `-` may be named twice.
fn over_file<R: Env + Files + Input + Print + Eprint + AllocGlobal>(
    rt: &R,
    limit: u64,
    task: Task,
    argument: usize,
    several: bool,
    out: &mut Output<'_, '_, R>,
) -> Result<(), AllocError> {
    let mut name = [0u8; 4096];
    let opened = input::open_argument(rt, argument, &mut name);
    let _ = title(task, several, &name[..opened.name], out);
    rooms::read(rt, limit, task, opened.source, out)
}

// A file's name: before each verdict, and on a line of its own where there are several. None is told where it is too long to be read.
fn title<W: Write>(task: Task, several: bool, name: &[u8], out: &mut W) -> io::Result<()> {
    if name.is_empty() {
        return Ok(());
    }
    if let Task::Inspect = task {
        out.write_all(name)?;
        return write!(out, ": ");
    }
    if several {
        out.write_all(name)?;
        return writeln!(out, ":");
    }
    Ok(())
}
