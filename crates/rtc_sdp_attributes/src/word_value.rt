//! Values that are one word: `setup`, `ice-ufrag`, `ice-pwd` and `sctp-init`.
ghost use Rattle.std.specs.Prelude.{◌≡◌, IfOk};
ghost use Rattle.rtc_sdp_attributes.specs.Forms as form;
ghost use Rattle.rtc_sdp_attributes.specs.AttributeForms.{setup_words};

use rtc_sdp_values::Setup;
use rtc_wire::Text;
use std::alloc::{AllocError, Global};

fn is_spaceless(text: &str) -> bool
    ensures { result ≡ form.is_spaceless text.now }
{
    !text.as_bytes().contains(&b' ')
}

fn is_word_up_to(most: usize, text: &str) -> bool
    ensures { result ≡ form.is_word_up_to most text.now }
{
    !text.is_empty() && text.len() <= most && is_spaceless(text)
}

/// The user name fragment of an `ice-ufrag` value, of 1 to 255 bytes (RFC 8839, section 5.4).
pub fn read_ufrag(alloc: Global, value: &str) -> Result<Option<Text>, AllocError>
    ensures { IfOk result (λ read. read ≡ form.word_up_to 255 value.now) }
{
    if is_word_up_to(255, value) {
        Ok(Some(Text::from_str(alloc, value)?))
    } else {
        Ok(None)
    }
}

/// The password of an `ice-pwd` value, of 1 to 256 bytes (RFC 8839, section 5.4).
pub fn read_password(alloc: Global, value: &str) -> Result<Option<Text>, AllocError>
    ensures { IfOk result (λ read. read ≡ form.word_up_to 256 value.now) }
{
    if is_word_up_to(256, value) {
        Ok(Some(Text::from_str(alloc, value)?))
    } else {
        Ok(None)
    }
}

/// The chunk of an `sctp-init` value, in base64 (draft-hancke-tsvwg-snap). It may be empty; it is not decoded here.
pub fn read_sctp_init(alloc: Global, value: &str) -> Result<Option<Text>, AllocError>
    ensures { IfOk result (λ read. read ≡ form.spaceless value.now) }
{
    if is_spaceless(value) {
        Ok(Some(Text::from_str(alloc, value)?))
    } else {
        Ok(None)
    }
}

/// The role that a `setup` value names (RFC 4145, section 4).
pub fn read_setup(value: &str) -> Option<Setup>
    ensures { result ≡ form.one_of setup_words value.now }
{
    if value == "actpass" {
        Some(Setup::ActPass)
    } else if value == "active" {
        Some(Setup::Active)
    } else if value == "passive" {
        Some(Setup::Passive)
    } else {
        None
    }
}
