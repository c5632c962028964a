//! Tokens: the `token` of RFC 8866, section 9.
ghost use Rattle.std.specs.Prelude.{◌≡◌};
ghost use Rattle.std.specs.List.{list_all};
ghost use Rattle.rtc_wire_text.specs.Tokens as token;

/// Whether a byte may be in a token.
pub fn is_token_byte(byte: u8) -> bool
    ensures { result ≡ token.is_token_byte byte }
{
    matches!(byte, 0x21 | 0x23..=0x27 | 0x2A..=0x2B | 0x2D..=0x2E | 0x30..=0x39 | 0x41..=0x5A | 0x5E..=0x7E)
}

fn are_token_bytes(text: &str) -> bool
    ensures { result ≡ list_all token.is_token_byte text.now }
{
    text.bytes().all(|byte| is_token_byte(byte))
}

/// Whether a text is a token: token bytes alone, and at least one.
pub fn is_token(text: &str) -> bool
    ensures { result ≡ token.is_token text.now }
{
    !text.is_empty() && are_token_bytes(text)
}

/// Whether a text is a token of at most 32 bytes.
pub fn is_short_token(text: &str) -> bool
    ensures { result ≡ token.is_short_token text.now }
{
    is_token(text) && text.len() <= 32
}
