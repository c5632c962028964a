//! A run over the lines of the input.
use crate::Examples;
use std::io;
use std::process::ExitCode;
use std::rt::Files;

// Whether the example that a line names gives what is expected.
fn does_agree<E: Examples, R: Files + AllocGlobal>(rt: &R, line: &str) -> bool {
    match line.split_once(' ') {
        Some((subject, name)) => E::does_agree(rt, subject, name),
        None => false,
    }
}

// Prints a line behind what became of its example.
fn tell<E: Examples, R: Files + Print + AllocGlobal>(rt: &R, line: &str) -> io::Result<bool> {
    let agrees = does_agree::<E, R>(rt, line);
    let word = if agrees { "agrees" } else { "differs" };
    println!(rt; "{word} {line}")?;
    Ok(agrees)
}

fn perform<E: Examples, R: Files + Print + AllocGlobal>(
    rt: &R,
    line: io::Result<String>,
) -> io::Result<bool> {
    let line = line?;
    tell::<E, R>(rt, line.as_str())
}

/// Runs the examples that the lines of the input name, each by a subject and a name behind a space. A line is printed again behind
/// `agrees`, or else behind `differs`, and the status is then 1.
pub fn run<E: Examples, R: Files + Input + Print + AllocGlobal>(rt: &R) -> io::Result<ExitCode> {
    let mut status = 0;
    for line in rt.lines(rt.alloc()) {
        if !perform::<E, R>(rt, line)? {
            status = 1;
        }
    }
    Ok(ExitCode::from(status))
}
