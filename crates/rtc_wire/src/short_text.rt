//! Texts that take no memory.
ghost use Rattle.std.specs.Prelude.{◌≡◌, ◌≤◌, length};

use std::marker::Model;
use std::str;

/// The most bytes of a short text.
pub(crate) const SHORT_TEXT_LEN: usize = 38;

/// A text of at most 38 bytes, which lie in the value itself. A contract sees it as the list of its bytes.
#[derive(Drop)]
pub(crate) struct ShortText {
    len: u8,
    bytes: [u8; 38],
}

impl Model for ShortText {
    ghost use Rattle.std.specs.Prelude.{ℕ, List, take};
    ghost use Rattle.rtc_wire.specs.ShortText.{IsInside};

    ghost Value = { List ℕ };

    ghost view = { λ t. take t.len t.bytes };

    ghost invariant = { IsInside };
}

impl ShortText {
    /// A text of its own with these bytes.
    pub(crate) fn of(text: &str) -> ShortText
        requires { length text.now ≤ 38 }
        ensures { result ≡ text.now }
    {
        let mut bytes = [0u8; 38];
        bytes[..text.len()].copy_from_slice(text.as_bytes());
        ShortText {
            len: text.len() as u8,
            bytes,
        }
    }

    /// An equal text.
    pub(crate) fn again(&self) -> ShortText
        ensures { result ≡ self.now }
    {
        ShortText {
            len: self.len,
            bytes: self.bytes,
        }
    }

    /// The text, lent.
    #[inline(always)]
    pub(crate) fn as_str(&self) -> &str
        ensures { result.now ≡ self.now }
    {
        unsafe { str::from_utf8_unchecked(&self.bytes[..self.len as usize]) }
    }
}
