//! Values of `fingerprint`.
ghost use Rattle.std.specs.Prelude.{◌≡◌, ◌++◌, IfOk, OnOk, string_bytes};
ghost use Rattle.rtc_wire_text.specs.LetterCase.{lower as spec_lower};
ghost use Rattle.rtc_sdp_attributes.specs.AttributeForms as form;
ghost use Rattle.rtc_sdp_attributes.specs.AttributeTexts as written;

use crate::cut;
use crate::hash_value::{put_hash, read_hash};
use rtc_sdp_values::Fingerprint;
use rtc_wire::Text;
use rtc_wire_text::{is_token, lower};
use std::alloc::{AllocError, Global};

/// The name of a hash function in lower case. That of SHA-256, which nearly all texts have, takes no memory.
fn hash_name(alloc: Global, name: &str) -> Result<Text, AllocError>
    ensures { IfOk result (λ made. made ≡ spec_lower name.now) }
{
    if name == "sha-256" {
        Text::from_str(alloc, "sha-256")
    } else {
        lower(alloc, name)
    }
}

/// The fingerprint that a value writes (RFC 8122, section 5). The name of the hash function is read in lower case.
pub fn read_fingerprint(alloc: Global, value: &str) -> Result<Option<Fingerprint>, AllocError>
    ensures { IfOk result (λ read. read ≡ form.fingerprint value.now) }
{
    let Some((name, digits)) = cut(value, b' ') else {
        return Ok(None);
    };
    if !is_token(name) {
        return Ok(None);
    }
    let Some(bytes) = read_hash(alloc, digits)? else {
        return Ok(None);
    };
    let hash_func = hash_name(alloc, name)?;
    Ok(Some(Fingerprint { hash_func, bytes }))
}

/// Appends a fingerprint's value, its hash in upper-case hex.
#[tactic(auto, unfolding(crate::specs::AttributeTexts::fingerprint_text))]
pub fn put_fingerprint(out: &mut String, fingerprint: &Fingerprint) -> Result<(), AllocError>
    ensures { OnOk result (string_bytes out.new ≡ string_bytes out.old ++ written.fingerprint_text fingerprint.now) }
{
    out.push_str(fingerprint.hash_func.as_str())?;
    out.push_str(" ")?;
    put_hash(out, fingerprint.bytes.as_slice())
}
