//! The files that examples read.
use crate::turn::Turn;
use std::rt::Files;
use std::{fs, io};

fn read<R: Files + AllocGlobal>(rt: &R, path: &str, ending: &str) -> io::Result<String> {
    let path = format!(in rt.alloc(); "{path}.{ending}")?;
    fs::read_to_string(rt, path.as_str())
}

fn read_turn<R: Files + AllocGlobal>(
    rt: &R,
    turns: &mut Vec<Turn>,
    path: &str,
    endings: (&str, &str),
) -> io::Result<()> {
    let offer = read(rt, path, endings.0)?;
    let told = read(rt, path, endings.1)?;
    turns.push(Turn { offer, told })?;
    Ok(())
}

// The endings of the files of a subject: an offer, and what is expected of its answer.
fn endings(subject: &str) -> Option<(&'static str, &'static str)> {
    match subject {
        "answer" => Some(("offer", "answer")),
        "copy" => Some(("offer", "answer")),
        "codecs" => Some(("text", "told")),
        "starts" => Some(("text", "told")),
        _ => None,
    }
}

/// Reads the offers that the peer of an example is given in turn, by their paths. It returns whether those that there are to be are there.
pub fn read_turns<R: Files + AllocGlobal>(
    rt: &R,
    turns: &mut Vec<Turn>,
    subject: &str,
    paths: &str,
) -> bool {
    let Some(endings) = endings(subject) else {
        return true;
    };
    for path in paths.split(' ') {
        if read_turn(rt, turns, path, endings).is_err() {
            return false;
        }
    }
    true
}
