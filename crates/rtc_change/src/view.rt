//! What offers and answers are judged by.
ghost use Rattle.std.specs.Prelude.{◌≡◌, option_map};
ghost use Rattle.std.specs.Option.{option_copied};
ghost use Rattle.std.specs.Cmp.{partial_equiv_from_equiv};
ghost use Rattle.rtc_change.specs.Held.{same_known_creds, same_text, same_held, same_held_equiv};

use rtc_peer_rows::Lines;
use rtc_sdp_values::IceCreds;
use std::marker::Model;

/// What a peer holds that an offer or an answer is judged by.
#[derive(Debug, Drop)]
pub struct View<'a> {
    pub lines: &'a Lines,
    /// Whether the ICE agent of this side is lite.
    pub lite: bool,
    /// The credentials of the other side, once known.
    pub remote_creds: Option<&'a IceCreds>,
    /// Whether a fingerprint of the other side is known.
    pub has_fingerprint: bool,
    /// Whether the association is started.
    pub sctp_inited: bool,
    /// The other side's SNAP INIT chunk as text, if the association was started by both chunks (draft-hancke-tsvwg-snap).
    pub sctp_kept: Option<&'a str>,
}

impl<'a> Model for View<'a> {
    ghost use Rattle.std.specs.Prelude.{option_map};
    ghost use Rattle.std.specs.Option.{option_copied};
    ghost use Rattle.rtc_change.specs.Held.{Held};

    ghost Value = { Held };

    ghost view = { λ view. record {
      lines = view.lines.now;
      lite = view.lite;
      remote_creds = option_copied view.remote_creds;
      has_fingerprint = view.has_fingerprint;
      sctp_inited = view.sctp_inited;
      sctp_kept = option_map (λ text. text.now) view.sctp_kept;
    } };
}

fn have_same_creds(one: Option<&IceCreds>, other: Option<&IceCreds>) -> bool
    ensures { result ≡ same_known_creds (option_copied one.entry) (option_copied other.entry) }
{
    match one {
        Some(creds) => match other {
            Some(others) => creds == others,
            None => false,
        },
        None => other.is_none(),
    }
}

fn have_same_text(one: Option<&str>, other: Option<&str>) -> bool
    ensures { result ≡ same_text (option_map (λ text. text.now) one.entry) (option_map (λ text. text.now) other.entry) }
{
    match one {
        Some(text) => match other {
            Some(others) => text == others,
            None => false,
        },
        None => other.is_none(),
    }
}

impl<'a> PartialEq for View<'a> {
    ghost eq = { same_held };

    ghost laws = { partial_equiv_from_equiv same_held_equiv };

    fn eq(&self, other: &View<'a>) -> bool {
        self.lines == other.lines
            && self.lite == other.lite
            && have_same_creds(self.remote_creds, other.remote_creds)
            && self.has_fingerprint == other.has_fingerprint
            && self.sctp_inited == other.sctp_inited
            && have_same_text(self.sctp_kept, other.sctp_kept)
    }
}

impl<'a> Eq for View<'a> {
    ghost laws = { same_held_equiv };
}
