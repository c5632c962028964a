//! Texts put behind a text.
ghost use Rattle.std.specs.Prelude.{◌≡◌, ◌<◌, ◌^◌, ◌++◌, OnOk, codes, string_bytes};
ghost use Rattle.std.specs.Fmt.{decimal};

use std::alloc::AllocError;

/// Puts a number behind a text.
pub fn push_number(out: &mut String, n: u64) -> Result<(), AllocError>
    ensures text { OnOk result (string_bytes out.new ≡ string_bytes out.old ++ decimal n) }
    ensures fit { n < 2 ^ 64 }
{
    write!(out, "{n}")
}

/// Puts a word and a number behind a text.
pub fn push_named(out: &mut String, word: &str, n: u64) -> Result<(), AllocError>
    ensures text { OnOk result (string_bytes out.new ≡ string_bytes out.old ++ word.now ++ decimal n) }
    ensures fit { n < 2 ^ 64 }
{
    out.push_str(word)?;
    push_number(out, n)
}

/// Puts a space and a word behind a text.
pub fn push_word(out: &mut String, word: &str) -> Result<(), AllocError>
    ensures { OnOk result (string_bytes out.new ≡ string_bytes out.old ++ codes " " ++ word.now) }
{
    out.push_str(" ")?;
    out.push_str(word)
}
