//! Tokens that are copied like numbers.
ghost use Rattle.std.specs.Prelude.{◌≡◌, if◌then◌else◌, Some, None, true, Option};
ghost use Rattle.rtc_wire_text.specs.Tokens.{is_short_token as IsShortToken};
ghost use Rattle.std.specs.Ordering.{nat_cmp, as_partial_cmp};
ghost use Rattle.std.specs.Cmp.Lexicographic.{slice_cmp, pointwise, nat_list_cmp_total, nat_list_eq_equiv, texts_po, texts_ties};
ghost use Rattle.std.specs.Cmp.{partial_equiv_from_equiv};
ghost use Rattle.std.specs.Prelude.{nat_eq, refl};

use crate::is_short_token;
use std::cmp::Ordering;
use std::marker::Model;
use std::str;

/// A token of 1 to 32 bytes, which is copied and takes no memory.
#[derive(Clone, Copy, Debug)]
pub struct ShortToken {
    len: u8,
    bytes: [u8; 32],
}

impl Model for ShortToken {
    ghost use Rattle.std.specs.Prelude.{ℕ, List};

    ghost Value = { List ℕ };

    ghost use Rattle.rtc_wire_text.specs.ShortToken.{token_of, IsPadded, fields_of, fields_again};

    ghost view = { token_of };

    ghost invariant = { IsPadded };

    ghost inverse = { λ token. fields_of token };

    ghost inverse_ok = { fields_again };
}

impl ShortToken {
    /// The token that a text is.
    pub fn read(text: &str) -> Option<ShortToken>
        ensures { result ≡ (if IsShortToken text.now then Some text.now else None) }
    {
        if is_short_token(text) {
            Some(ShortToken::of(text))
        } else {
            None
        }
    }

    /// The token that a text is known to be.
    pub fn of(text: &str) -> ShortToken
        requires { IsShortToken text.now ≡ true }
        ensures { result ≡ text.now }
    {
        let mut bytes = [0u8; 32];
        bytes[..text.len()].copy_from_slice(text.as_bytes());
        ShortToken {
            len: text.len() as u8,
            bytes,
        }
    }

    /// The token as text, lent.
    pub fn as_str(&self) -> &str
        ensures value { result.now ≡ self.now }
        ensures token { IsShortToken self.now ≡ true }
    {
        match str::from_utf8(self.as_bytes()) {
            Ok(text) => text,
            Err(_) => unreachable!(),
        }
    }

    /// The bytes of the token, lent.
    #[inline(always)]
    fn as_bytes(&self) -> &[u8]
        ensures value { result.now ≡ self.now }
        ensures token { IsShortToken self.now ≡ true }
    {
        &self.bytes[..self.len as usize]
    }
}

impl PartialEq for ShortToken {
    ghost eq = { pointwise nat_eq };

    ghost laws = { partial_equiv_from_equiv nat_list_eq_equiv };

    fn eq(&self, other: &ShortToken) -> bool {
        self.as_bytes() == other.as_bytes()
    }
}

impl Eq for ShortToken {
    ghost laws = { nat_list_eq_equiv };
}

impl PartialOrd for ShortToken {
    ghost partial_cmp = { as_partial_cmp (slice_cmp nat_cmp) };

    ghost laws = { texts_po };

    fn partial_cmp(&self, other: &ShortToken) -> Option<Ordering> {
        Some(self.cmp(other))
    }
}

impl Ord for ShortToken {
    ghost cmp = { slice_cmp nat_cmp };

    ghost total = { nat_list_cmp_total };

    ghost matches_partial_cmp = { λ x y. refl };

    ghost matches_eq = { texts_ties };

    fn cmp(&self, other: &ShortToken) -> Ordering {
        self.as_bytes().cmp(other.as_bytes())
    }
}
