//! A text.
ghost use Rattle.std.specs.Prelude.{◌≡◌, ℕ, List, IfOk, nat_eq, string_bytes};
ghost use Rattle.std.specs.Cmp.{partial_equiv_from_equiv};
ghost use Rattle.std.specs.Cmp.Lexicographic.{pointwise, nat_list_eq_equiv};
ghost use Rattle.std.specs.Hash as fed;
ghost use Rattle.std.specs.Cmp.Rules.{hashing};
ghost use Rattle.std.proofs.Common.{rules};

use crate::TryCopy;
use crate::short_text::{SHORT_TEXT_LEN, ShortText};
use std::alloc::{AllocError, Global};
use std::fmt;
use std::hash::{Hash, Hasher};
use std::marker::Model;

/// Where the bytes of a text lie.
#[derive(Drop)]
enum Kept {
    Short(ShortText),
    Long(String),
}

/// A text that a value owns. A copy of at most 38 bytes lies in the value itself and takes no memory; [`Text::new`] keeps its string.
/// A contract sees it as the list of its bytes, which are UTF-8.
#[derive(Drop)]
pub struct Text {
    kept: Kept,
}

impl Model for Text {
    ghost use Rattle.std.specs.Prelude.{ℕ, List};
    ghost use Rattle.rtc_wire.specs.Text.{kept_bytes};

    ghost Value = { List ℕ };

    ghost view = { λ t. kept_bytes t.kept };
}

impl Text {
    /// The text of a string, without a copy.
    pub fn new(text: String) -> Text
        ensures { result ≡ string_bytes text }
    {
        Text {
            kept: Kept::Long(text),
        }
    }

    /// A text of its own with these bytes.
    pub fn from_str(alloc: Global, text: &str) -> Result<Text, AllocError>
        ensures { IfOk result (λ made. made ≡ text.now) }
    {
        if text.len() <= SHORT_TEXT_LEN {
            return Ok(Text {
                kept: Kept::Short(ShortText::of(text)),
            });
        }
        let text = String::from_str(alloc, text)?;
        Ok(Text::new(text))
    }

    /// The text, lent.
    #[inline(always)]
    pub fn as_str(&self) -> &str
        ensures { result.now ≡ self.now }
    {
        match &self.kept {
            Kept::Short(text) => text.as_str(),
            Kept::Long(text) => text.as_str(),
        }
    }
}

impl TryCopy for Text {
    fn copy(&self) -> Result<Text, AllocError> {
        match &self.kept {
            Kept::Short(text) => Ok(Text {
                kept: Kept::Short(text.again()),
            }),
            Kept::Long(text) => Text::from_str(*text.allocator(), text.as_str()),
        }
    }
}

impl fmt::Debug for Text {
    fn fmt<W: fmt::Write>(&self, f: &mut fmt::Formatter<W>) -> fmt::Result {
        write!(f, "{:?}", self.as_str())
    }
}

impl PartialEq for Text {
    ghost eq = { pointwise nat_eq };

    ghost laws = { partial_equiv_from_equiv nat_list_eq_equiv };

    fn eq(&self, other: &Text) -> bool {
        self.as_str() == other.as_str()
    }
}

impl Eq for Text {
    ghost laws = { nat_list_eq_equiv };
}

impl Hash for Text {
    ghost hash_input = { fed.str };

    ghost respects_eq = { Prim.search (hashing, rules) };

    fn hash<H: Hasher>(&self, state: &mut H) {
        self.as_str().hash(state);
    }
}
