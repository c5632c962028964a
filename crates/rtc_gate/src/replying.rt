//! Replies as lines.
ghost use Rattle.std.specs.Prelude.{◌≡◌, ◌++◌, OnOk, IfOk, string_bytes};
ghost use Rattle.std.specs.Fmt.{decimal};
ghost use Rattle.rtc_gate.specs.ReplyLines.{refusal_words, taken_words, reply_words, reply_lines};

use crate::hexadecimal::push_hex;
use rtc_gate_calls::{GateError, GateReply};
use rtc_wire::Bytes;
use std::alloc::{AllocError, Global};

fn push_number(out: &mut String, n: u32) -> Result<(), AllocError>
    ensures { OnOk result (string_bytes out.new ≡ string_bytes out.old ++ decimal n) }
{
    write!(out, "{n}")
}

fn push_place(out: &mut String, n: u64) -> Result<(), AllocError>
    ensures { OnOk result (string_bytes out.new ≡ string_bytes out.old ++ decimal n) }
{
    write!(out, "{n}")
}

fn push_refusal(out: &mut String, error: &GateError) -> Result<(), AllocError>
    ensures { OnOk result (string_bytes out.new ≡ string_bytes out.old ++ refusal_words error.now) }
{
    match error {
        GateError::BadName => out.push_str("badname"),
        GateError::NameTaken => out.push_str("nametaken"),
        GateError::Full => out.push_str("full"),
        GateError::NoSuch => out.push_str("nosuch"),
        GateError::BadFrame { at } => {
            out.push_str("badframe ")?;
            push_place(out, *at)
        }
        GateError::Alloc => out.push_str("nomemory"),
    }
}

fn push_taken(out: &mut String, frame: &Option<Bytes>) -> Result<(), AllocError>
    ensures { OnOk result (string_bytes out.new ≡ string_bytes out.old ++ taken_words frame.now) }
{
    match frame {
        None => out.push_str("none"),
        Some(frame) => {
            out.push_str("took ")?;
            push_hex(out, frame.as_slice())
        }
    }
}

fn push_reply(out: &mut String, reply: &GateReply) -> Result<(), AllocError>
    ensures { OnOk result (string_bytes out.new ≡ string_bytes out.old ++ reply_words reply.now) }
{
    match reply {
        GateReply::Joined(number) => {
            out.push_str("joined ")?;
            push_number(out, *number)
        }
        GateReply::Left => out.push_str("left"),
        GateReply::Fed(count) => {
            out.push_str("fed ")?;
            push_number(out, *count)
        }
        GateReply::Took(frame) => push_taken(out, frame),
        GateReply::Refused(error) => {
            out.push_str("refused ")?;
            push_refusal(out, error)
        }
    }
}

/// A line for each reply.
pub fn write_replies(alloc: Global, replies: &[GateReply]) -> Result<Vec<u8>, AllocError>
    ensures { IfOk result (λ bytes. bytes.items ≡ reply_lines replies.now) }
{
    let mut out = String::new(alloc);
    for reply in replies {
        push_reply(&mut out, reply)?;
        out.push_str("\n")?;
    }
    Ok(out.into_bytes())
}
