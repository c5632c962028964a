//! A text, line by line, with what becomes of each.
ghost use Rattle.std.specs.Prelude.{◌≡◌, ◌++◌, IfOk, OnOk, is_err, string_bytes};
ghost use Rattle.rtc_wire_text.specs.Lines.{lines};
ghost use Rattle.rtc_sdp_grammar.specs.ItemForm as items;
ghost use Rattle.rtc_sdp_reader.specs.Reading.{reading};
ghost use Rattle.rtc_sdp_text.specs.Explanation as spec;

use crate::fates::{came_with, cause, item_fate, next};
use crate::repairing::{repair, utf8_of};
use crate::{Cause, Explanation, Fate, Walk};
use rtc_sdp_grammar::{Item, item_of};
use rtc_sdp_reader::{Place, read};
use rtc_sdp_values::SdpError;
use rtc_wire::{Seq, Text};
use rtc_wire_drops::release;
use std::alloc::{AllocError, Global};

fn cause_words(cause: Cause) -> &'static str
    ensures { result.now ≡ spec.cause_words cause }
{
    match cause {
        Cause::NoVersion => "refused (the first line is not v=0)",
        Cause::NoOrigin => "refused (the second line is no o= line)",
        Cause::NoForm => "refused (no line of a session description)",
        Cause::Malformed => "refused (not of its form)",
        Cause::NotOneMid => "refused (its part has not exactly one mid)",
    }
}

fn fate_words(fate: Fate) -> &'static str
    ensures { result.now ≡ spec.fate_words fate }
{
    match fate {
        Fate::Frame => "frame",
        Fate::Kept => "kept",
        Fate::UnknownName => "skipped (unknown attribute)",
        Fate::CameBefore => "skipped (another came first)",
        Fate::NotOfItsForm => "skipped (not of its form)",
        Fate::NotHere => "skipped (not here)",
        Fate::Refused(cause) => cause_words(cause),
    }
}

fn put_row(out: &mut String, fate: Fate, line: &str) -> Result<(), AllocError>
    ensures { OnOk result (string_bytes out.new ≡ string_bytes out.old ++ spec.fate_row fate line.now) }
{
    out.push_str(fate_words(fate))?;
    out.push_str(" | ")?;
    out.push_str(line)?;
    out.push_str("\n")
}

fn is_refused_here(left: Option<u32>) -> bool
    ensures { result ≡ spec.is_refused_here left }
{
    match left {
        None => false,
        Some(left) => left == 1,
    }
}

fn one_less(left: Option<u32>) -> Option<u32>
    ensures { result ≡ spec.one_less left }
{
    match left {
        None => None,
        Some(left) => Some(left.saturating_sub(1)),
    }
}

fn put_end(out: &mut String, left: Option<u32>) -> Result<(), AllocError>
    ensures { OnOk result (string_bytes out.new ≡ string_bytes out.old ++ spec.end_row left) }
{
    match left {
        None => Ok(()),
        Some(_) => out.push_str("refused (the text ends too early)\n"),
    }
}

/// The row of a line at the place of a walk.
fn put_item(out: &mut String, walk: &Walk, line: &str, item: &Item) -> Result<(), AllocError>
    ensures { OnOk result (string_bytes out.new ≡ string_bytes out.old ++ spec.item_row walk.now line.now item.now) }
{
    if is_refused_here(walk.left) {
        put_row(out, Fate::Refused(cause(walk.place, item)), line)
    } else {
        put_row(
            out,
            item_fate(walk.place, walk.came.as_slice(), line, item),
            line,
        )
    }
}

/// Goes over a line.
fn go_over(walk: &mut Walk, item: &Item) -> Result<(), AllocError>
    ensures { OnOk result (walk.new ≡ spec.walk_over walk.old item.now) }
{
    came_with(&mut walk.came, walk.place, item)?;
    walk.place = next(walk.place, item);
    walk.left = one_less(walk.left);
    Ok(())
}

/// Puts the row of a line, and walks over it.
fn put_and_go_over(
    out: &mut String,
    walk: &mut Walk,
    line: &str,
    item: &Item,
) -> Result<(), AllocError>
    ensures row { OnOk result (string_bytes out.new ≡ string_bytes out.old ++ spec.item_row walk.old line.now item.now) }
    ensures walk { OnOk result (walk.new ≡ spec.walk_over walk.old item.now) }
{
    put_item(out, walk, line, item)?;
    go_over(walk, item)
}

/// Puts the row of the next line, and walks over it.
fn put_next(alloc: Global, out: &mut String, walk: &mut Walk, line: &str) -> Result<(), AllocError>
    ensures row { OnOk result (string_bytes out.new ≡ string_bytes out.old
        ++ spec.item_row walk.old line.now (items.item_of line.now)) }
    ensures walk { OnOk result (walk.new ≡ spec.walk_over walk.old (items.item_of line.now)) }
{
    let item = item_of(alloc, line)?;
    let put = put_and_go_over(out, walk, line, &item);
    release(item, put)
}

/// The rows of a text whose line of this number refuses it, if one does.
fn rows_of(alloc: Global, text: &str, refused: Option<u32>) -> Result<String, AllocError>
    ensures { IfOk result (λ out. string_bytes out ≡ spec.rows_from (spec.begun refused) (lines text.now)) }
{
    let mut out = String::new(alloc);
    let mut walk = Walk {
        place: Place::First,
        came: Seq::empty(alloc),
        left: refused,
    };
    for line in text.lines() {
        let is_last = is_refused_here(walk.left);
        put_next(alloc, &mut out, &mut walk, line)?;
        if is_last {
            return Ok(out);
        }
    }
    put_end(&mut out, walk.left)?;
    Ok(out)
}

/// The number of the line that refuses a text.
fn refusal_in(alloc: Global, text: &str) -> Result<Option<u32>, AllocError>
    ensures { IfOk result (λ number. number ≡ spec.refusal_in (reading text.now)) }
{
    match read(alloc, text) {
        Ok(sdp) => release(sdp, Ok(None)),
        Err(SdpError::Parse(number)) => Ok(Some(number)),
        Err(SdpError::Inconsistent(_)) => unreachable!(),
        Err(SdpError::Alloc) => Err(AllocError),
    }
}

#[tactic(auto, unfolding(crate::specs::Explanation::explanation))]
fn explain_text(alloc: Global, text: &str) -> Result<Explanation, AllocError>
    ensures rows { IfOk result (λ explained. explained.rows ≡ spec.explanation text.now) }
    ensures is_refused { IfOk result (λ explained. explained.is_refused ≡ is_err (reading text.now)) }
{
    let refused = refusal_in(alloc, text)?;
    let rows = rows_of(alloc, text, refused)?;
    Ok(Explanation {
        rows: Text::new(rows),
        is_refused: refused.is_some(),
    })
}

/// A session description of these bytes, line by line, with what becomes of each.
pub fn explain(alloc: Global, bytes: &[u8]) -> Result<Explanation, AllocError>
    ensures { IfOk result (λ explained. spec.IsExplained explained bytes.now) }
{
    match utf8_of(bytes) {
        Some(text) => explain_text(alloc, text),
        None => {
            let text = repair(alloc, bytes)?;
            explain_text(alloc, text.as_str())
        }
    }
}
