//! Labels of channels, and bytes of messages.
ghost use Rattle.std.specs.Prelude.{◌≡◌, ◌≢◌, ◌↔◌, IsTrue, ℕ, List, IfOk, IfSome, IfNone};
ghost use Rattle.std.specs.Str.{IsUtf8};
ghost use Rattle.hex.specs.Hex.{IsBytes, encode_lower};
ghost use Rattle.hex.specs.declared.error.FromHexError.TheVariants.{OutOfMemory};
ghost use Rattle.rtc_script.specs.Words.{hex_word};

use crate::words::is_word;
use hex::FromHexError;
use rtc_wire::Text;
use std::alloc::{AllocError, Global};

fn is_no_memory(error: &FromHexError) -> bool
    ensures { IsTrue result ↔ (error.now ≡ OutOfMemory) }
{
    match error {
        FromHexError::OutOfMemory => true,
        _ => false,
    }
}

// The bytes whose hex digits a word is.
fn read_digits(alloc: Global, word: &[u8]) -> Result<Option<Vec<u8>>, AllocError>
    ensures some { IfOk result (λ read. IfSome read (λ bytes. (word.now ≡ encode_lower bytes.items) × IsBytes bytes.items)) }
    ensures none { IfOk result (λ read. IfNone read ((bytes : List ℕ) → IsBytes bytes → word.now ≢ encode_lower bytes)) }
{
    let bytes = match hex::decode(alloc, word) {
        Ok(bytes) => bytes,
        Err(error) => {
            if is_no_memory(&error) {
                return Err(AllocError);
            }
            return Ok(None);
        }
    };
    let again = hex::encode(alloc, bytes.as_slice())?;
    if again.as_bytes() == word {
        Ok(Some(bytes))
    } else {
        Ok(None)
    }
}

/// The bytes that a word writes.
pub fn read_bytes(alloc: Global, word: &[u8]) -> Result<Option<Vec<u8>>, AllocError>
    ensures some { IfOk result (λ read. IfSome read (λ bytes. (word.now ≡ hex_word bytes.items) × IsBytes bytes.items)) }
    ensures none { IfOk result (λ read. IfNone read ((bytes : List ℕ) → IsBytes bytes → word.now ≢ hex_word bytes)) }
{
    if is_word(word, "-") {
        return Ok(Some(Vec::new(alloc)));
    }
    if word.is_empty() {
        return Ok(None);
    }
    read_digits(alloc, word)
}

/// The label that a word writes, which is UTF-8.
pub fn read_label(alloc: Global, word: &[u8]) -> Result<Option<Text>, AllocError>
    ensures some { IfOk result (λ read. IfSome read (λ label. (word.now ≡ hex_word label) × IsUtf8 label)) }
    ensures none { IfOk result (λ read. IfNone read ((label : List ℕ) → IsUtf8 label → word.now ≢ hex_word label)) }
{
    let Some(bytes) = read_bytes(alloc, word)? else {
        return Ok(None);
    };
    match String::from_utf8(bytes) {
        Ok(label) => Ok(Some(Text::new(label))),
        Err(_) => Ok(None),
    }
}
