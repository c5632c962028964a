//! Rows of a peer.
use rtc::{Direction, LineRow, Lines};
use std::alloc::{AllocError, Global};

fn direction_word(dir: Direction) -> &'static str {
    match dir {
        Direction::SendRecv => "sendrecv",
        Direction::SendOnly => "sendonly",
        Direction::RecvOnly => "recvonly",
        Direction::Inactive => "inactive",
    }
}

fn print_row(text: &mut String, row: &LineRow) -> Result<(), AllocError> {
    match row {
        LineRow::Media {
            mid,
            kind,
            dir,
            stopped,
            ..
        } => {
            let kind = if kind.is_audio() { "audio" } else { "video" };
            let state = if *stopped { "stopped" } else { "live" };
            let dir = direction_word(*dir);
            writeln!(text, "{} {kind} {dir} {state}", mid.as_str())
        }
        LineRow::App { mid, .. } => writeln!(text, "{} application", mid.as_str()),
    }
}

/// The rows of a peer, a line each.
pub fn print_rows(alloc: Global, lines: &Lines) -> Result<String, AllocError> {
    let mut text = format!(in alloc; "rows\n")?;
    for row in lines.rows() {
        print_row(&mut text, row)?;
    }
    write!(text, ".")?;
    Ok(text)
}
