//! Letters of either case.
ghost use Rattle.std.specs.Prelude.{◌≡◌, IfOk};
ghost use Rattle.std.specs.Str.{bytes_eq};
ghost use Rattle.rtc_wire_text.specs.LetterCase as spec;

use rtc_wire::Text;
use std::alloc::{AllocError, Global};

/// The text with each ASCII capital letter made small.
pub fn lower(alloc: Global, text: &str) -> Result<Text, AllocError>
    ensures { IfOk result (λ made. made ≡ spec.lower text.now) }
{
    let text = text.to_ascii_lowercase(alloc)?;
    Ok(Text::new(text))
}

/// Whether two texts are the same, the case of ASCII letters aside.
pub fn same_letters(left: &str, right: &str) -> bool
    ensures { result ≡ bytes_eq (spec.lower left.now) (spec.lower right.now) }
{
    left.eq_ignore_ascii_case(right)
}
