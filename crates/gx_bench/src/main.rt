//! The program that `bench/partitions` and `bench/loads` measure; nothing depends on it.
//!
//! Each four words of its arguments, OPERATION SHAPE INPUT ROUNDS, are a task. INPUT is a number of
//! rows, or for a load the name of a file; the operation is done ROUNDS times, and each result is
//! kept until the task ends. So the time and the memory of one result are the growth from one number
//! of rounds to another. For each task it prints a line with the items of the last result and a sum
//! over them. It never reads a clock.
#![tactic(auto)]

mod edges;
mod kept;
mod loads;
mod shape;
mod stop;
mod tables;
mod totals;
mod vertices;

use edges::EdgeCall;
use loads::{FileKind, kind_of_word};
use shape::Shape;
use std::io::ErrorKind;
use std::process::ExitCode;
use std::rt::{Env, Files};
use std::{env, fs};
use stop::Stop;
use tables::TableCall;
use totals::Totals;

fn main(rt: HostRuntime) -> ExitCode {
    match run(&rt) {
        Ok(()) => ExitCode::from(0),
        Err(stop) => ExitCode::from(stop.code()),
    }
}

fn run<R: Env + Files + Print + AllocGlobal>(rt: &R) -> Result<(), Stop> {
    let words = args_of(rt)?;
    let mut rest = words.as_slice();
    while let [operation, shape, input, rounds, after @ ..] = rest {
        let totals = totals_of(rt, operation, shape, input, rounds)?;
        let Totals { items, sum } = totals;
        let line = println!(rt; "{operation} {shape} {input} {rounds}: {items} items, sum {sum}");
        if line.is_err() {
            return Err(Stop::Output);
        }
        rest = after;
    }
    if rest.is_empty() {
        Ok(())
    } else {
        Err(Stop::Usage)
    }
}

fn args_of<R: Env + AllocGlobal>(rt: &R) -> Result<Vec<String>, Stop> {
    match env::args(rt) {
        Ok(args) => args.skip(1).collect(rt.alloc()).map_err(|_| Stop::NoMemory),
        Err(error) if error.kind() == ErrorKind::OutOfMemory => Err(Stop::NoMemory),
        Err(_) => Err(Stop::Usage),
    }
}

fn totals_of<R: Files + AllocGlobal>(
    rt: &R,
    operation: &str,
    shape: &str,
    input: &str,
    rounds: &str,
) -> Result<Totals, Stop> {
    let rounds = number_of(rounds)?;
    if let Some(kind) = FileKind::of_word(operation) {
        let Some(cells) = kind_of_word(shape) else {
            return Err(Stop::Usage);
        };
        let Ok(bytes) = fs::read(rt, input) else {
            return Err(Stop::File);
        };
        return Ok(kind.measure(rt.alloc(), cells, bytes.as_slice(), rounds)?);
    }
    let Some(shape) = Shape::of_word(shape) else {
        return Err(Stop::Usage);
    };
    let count = number_of(input)?;
    if let Some(call) = TableCall::of_word(operation) {
        return Ok(call.measure(rt.alloc(), shape, count, rounds)?);
    }
    match EdgeCall::of_word(operation) {
        Some(call) => Ok(call.measure(rt.alloc(), shape, count, rounds)?),
        None => Err(Stop::Usage),
    }
}

fn number_of(word: &str) -> Result<u32, Stop> {
    match word.parse::<u32>() {
        Ok(number) => Ok(number),
        Err(_) => Err(Stop::Usage),
    }
}
