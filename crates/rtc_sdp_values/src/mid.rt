//! Names of m-lines.
ghost use Rattle.std.specs.Prelude.{◌≡◌, ℕ, List, if◌then◌else◌, Some, None, Option, true, IfOk};
ghost use Rattle.rtc_wire_text.specs.Tokens.{is_short_token as IsShortToken};
ghost use Rattle.rtc_sdp_values.specs.Mids.{is_among};

use rtc_wire::TryCopy;
use rtc_wire_text::ShortToken;
use std::alloc::AllocError;
use std::fmt;
use std::marker::Model;

/// The name of an m-line: a token of 1 to 32 bytes (RFC 5888, section 4; the length is our profile's).
///
/// It is copied like a number. A contract sees it as the list of its bytes.
#[derive(Clone, Copy, PartialEq, Eq, PartialOrd, Ord)]
pub struct Mid {
    token: ShortToken,
}

impl Model for Mid {
    ghost use Rattle.std.specs.Prelude.{ℕ, List};

    ghost Value = { List ℕ };

    ghost view = { λ name. name.token };

    ghost inverse = { λ token. record { token = token } };
}

impl Mid {
    /// The name that a text is; None if it is no token, or longer than 32 bytes.
    pub fn read(text: &str) -> Option<Mid>
        ensures { result ≡ (if IsShortToken text.now then Some text.now else None) }
    {
        let token = ShortToken::read(text)?;
        Some(Mid { token })
    }

    /// The name that a text is known to be.
    pub fn of(text: &str) -> Mid
        requires { IsShortToken text.now ≡ true }
        ensures { result ≡ text.now }
    {
        Mid {
            token: ShortToken::of(text),
        }
    }

    /// The name as text, lent.
    pub fn as_str(&self) -> &str
        ensures value { result.now ≡ self.now }
        ensures token { IsShortToken self.now ≡ true }
    {
        self.token.as_str()
    }

    /// Whether it is one of these.
    pub fn is_among(self, mids: &[Mid]) -> bool
        ensures { result ≡ is_among mids.now self }
    {
        for mid in mids {
            if *mid == self {
                return true;
            }
        }
        false
    }
}

impl fmt::Debug for Mid {
    fn fmt<W: fmt::Write>(&self, f: &mut fmt::Formatter<W>) -> fmt::Result {
        write!(f, "Mid({})", self.as_str())
    }
}

impl TryCopy for Mid {
    fn copy(&self) -> Result<Mid, AllocError> {
        Ok(*self)
    }
}
