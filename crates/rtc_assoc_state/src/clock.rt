//! Moments that an association keeps.
ghost use Rattle.std.specs.Prelude.{◌≡◌};
ghost use Rattle.rtc_assoc_state.specs.Contents.{second_after, earlier};

use rtc_wire::{Moment, Span};

/// Moments that an association keeps.
#[derive(Debug, Drop)]
pub struct Clock {
    /// The moment given last.
    pub now: Moment,
    /// When the client's hello was queued last.
    pub hello_sent: Moment,
    /// When items were queued last.
    pub items_sent: Moment,
}

/// One second after a moment.
pub fn second_after(moment: Moment) -> Moment
    ensures { result ≡ second_after moment }
{
    moment.plus(Span::from_secs(1))
}

/// The earlier of two moments, if there are any.
pub fn earlier(a: Option<Moment>, b: Option<Moment>) -> Option<Moment>
    ensures { result ≡ earlier a b }
{
    match a {
        None => b,
        Some(x) => match b {
            None => Some(x),
            Some(y) => {
                if x.nanos() <= y.nanos() {
                    Some(x)
                } else {
                    Some(y)
                }
            }
        },
    }
}
