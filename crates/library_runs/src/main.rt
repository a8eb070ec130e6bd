//! Runs parts of the libraries: for the benchmark, and while memory is refused.
//!
//! library_runs calls DIRECTORIES NAMES create|write [image]
//! library_runs checks 6|7 icheck|dcheck|ncheck WORKERS TIMES < IMAGE
//! library_runs views lock|view|views|calls COUNT VIEWS BLOCKS BYTES
//! library_runs refused volume|sessions|views
//!
//! More tasks may follow, each after the word `+`. Prints a line for each. Ends with status 1 if a word can't be read or a line can't be printed; for
//! all tasks but `refused`, also if memory ran out or a call was refused.
#![tactic(auto)]

mod calls;
mod checks;
mod queries;
mod refused;
mod sessions;
mod steps;
mod views;

use pdp_words::{FromRead, IntoWrite, load, write_all};
use std::env::{self, Env};
use std::io::{Read, Write};
use std::process::ExitCode;
use std::sync::Wait;
use std::thread::Threads;

/// Returns word `k` as a number.
fn number(words: &[String], k: usize) -> Option<u32> {
    words.get(k)?.as_str().parse::<u32>().ok()
}

/// Runs a task, whose first word is its name, and returns its output.
fn perform<R: AllocGlobal + Threads + Wait + Sync, I: Read>(
    rt: &R,
    words: &[String],
    input: &mut I,
) -> Option<Vec<u8>> {
    let alloc = rt.alloc();
    match words.first()?.as_str() {
        "calls" => calls::Task::read(words)?.run(alloc),
        "checks" => {
            let task = checks::Task::read(words)?;
            let image = load(alloc, &mut FromRead::new(input)).ok()?;
            task.run(rt, alloc, &image)
        }
        "views" => views::Task::read(words)?.run(rt, alloc),
        _ => None,
    }
}

/// Returns the words after the program's own name, or `None` if memory ran out.
fn words<R: Env + AllocGlobal>(rt: &R) -> Option<Vec<String>> {
    env::args(rt).ok()?.collect::<Vec<String>>(rt.alloc()).ok()
}

/// Runs the tasks that the words name, and prints their output.
fn run<R: Env + AllocGlobal + Threads + Wait + Sync, I: Read + Drop, O: Write + Drop>(
    rt: &R,
    input: I,
    output: O,
) -> Option<()> {
    let words = words(rt).or_else(|| words(rt))?;
    let (_, words) = words.as_slice().split_first()?;
    let mut input = input;
    let mut output = IntoWrite::new(output);
    for task in words.split(|word| word.as_str() == "+") {
        if task.first()?.as_str() == "refused" {
            refused::run(rt, rt.alloc(), task).print(&mut output)?;
        } else {
            let printed = perform(rt, task, &mut input)?;
            write_all(&mut output, &printed).ok()?;
        }
    }
    Some(())
}

fn main(rt: HostRuntime) -> ExitCode {
    match run(&rt, rt.stdin(), rt.stdout()) {
        Some(()) => ExitCode::SUCCESS,
        None => ExitCode::from(1),
    }
}
