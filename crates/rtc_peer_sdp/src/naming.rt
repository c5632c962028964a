//! Draws of names.
ghost use Rattle.std.specs.Prelude.{◌≡◌, IfOk, OnOk, option_map, string_bytes};
ghost use Rattle.rtc_parts.specs.Draws.{Later};
ghost use Rattle.rtc_peer_core.specs.Names.{kept_token_bytes, kept_name, name_of, after_name};

use rtc_parts::Ids;
use rtc_wire::Text;
use rtc_wire_text::is_token_byte;
use std::alloc::{AllocError, Global};

// The bytes that are kept of a name.
fn list_kept(alloc: Global, name: &str) -> Result<Vec<u8>, AllocError>
    ensures { IfOk result (λ kept. kept.items ≡ kept_token_bytes name.now) }
{
    name.bytes()
        .filter(|byte| is_token_byte(*byte))
        .take(64)
        .collect(alloc)
}

// What is kept of a name.
fn keep_bytes(alloc: Global, name: &str) -> Result<Text, AllocError>
    ensures { IfOk result (λ kept. kept ≡ kept_token_bytes name.now) }
{
    let kept = list_kept(alloc, name)?;
    match String::from_utf8(kept) {
        Ok(text) => Ok(Text::new(text)),
        Err(_) => unreachable!(),
    }
}

/// A given name, if something is kept of it.
pub fn keep_name(alloc: Global, name: Option<String>) -> Result<Option<Text>, AllocError>
    ensures { IfOk result (λ kept. kept ≡ kept_name (option_map (λ given. string_bytes given) name)) }
{
    let Some(name) = name else {
        return Ok(None);
    };
    let kept = keep_bytes(alloc, name.as_str())?;
    if kept.as_str().is_empty() {
        Ok(None)
    } else {
        Ok(Some(kept))
    }
}

/// The name that is given, or else one that is drawn.
#[tactic(auto, using(rtc_parts::proofs::LaterLemmas::later_none, rtc_parts::proofs::LaterLemmas::later_once))]
pub fn draw_name<N: Ids>(
    alloc: Global,
    ids: &mut N,
    prefix: &str,
    given: Option<Text>,
) -> Result<Text, AllocError>
    ensures name { IfOk result (λ name. name ≡ name_of N.ids prefix.now given ids.old) }
    ensures after { OnOk result (ids.new ≡ after_name N.ids given ids.old) }
    ensures later { Later N.ids ids.old ids.new }
{
    match given {
        Some(name) => Ok(name),
        None => {
            let n = ids.draw();
            let name = format!(in alloc; "{prefix}{n}")?;
            Ok(Text::new(name))
        }
    }
}
