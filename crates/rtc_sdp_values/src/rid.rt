//! Names of simulcast layers.
ghost use Rattle.std.specs.Prelude.{◌≡◌, ℕ, List, if◌then◌else◌, Some, None, Option, true, IfOk};
ghost use Rattle.rtc_wire_text.specs.Tokens.{is_short_token as IsShortToken};

use rtc_wire::TryCopy;
use rtc_wire_text::ShortToken;
use std::alloc::AllocError;
use std::fmt;
use std::marker::Model;

/// The name of a simulcast layer: a token of 1 to 32 bytes (RFC 8851, section 4; the length is our profile's).
///
/// It is copied like a number. A contract sees it as the list of its bytes.
#[derive(Clone, Copy, PartialEq, Eq, PartialOrd, Ord)]
pub struct Rid {
    token: ShortToken,
}

impl Model for Rid {
    ghost use Rattle.std.specs.Prelude.{ℕ, List};

    ghost Value = { List ℕ };

    ghost view = { λ name. name.token };

    ghost inverse = { λ token. record { token = token } };
}

impl Rid {
    /// The name that a text is; None if it is no token, or longer than 32 bytes.
    pub fn read(text: &str) -> Option<Rid>
        ensures { result ≡ (if IsShortToken text.now then Some text.now else None) }
    {
        let token = ShortToken::read(text)?;
        Some(Rid { token })
    }

    /// The name that a text is known to be.
    pub fn of(text: &str) -> Rid
        requires { IsShortToken text.now ≡ true }
        ensures { result ≡ text.now }
    {
        Rid {
            token: ShortToken::of(text),
        }
    }

    /// The name as text, lent.
    pub fn as_str(&self) -> &str
        ensures value { result.now ≡ self.now }
        ensures token { IsShortToken self.now ≡ true }
    {
        self.token.as_str()
    }
}

impl fmt::Debug for Rid {
    fn fmt<W: fmt::Write>(&self, f: &mut fmt::Formatter<W>) -> fmt::Result {
        write!(f, "Rid({})", self.as_str())
    }
}

impl TryCopy for Rid {
    fn copy(&self) -> Result<Rid, AllocError> {
        Ok(*self)
    }
}
