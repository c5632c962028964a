//! Tokens of offers.
ghost use Rattle.std.specs.Prelude.{◌≡◌};
ghost use Rattle.std.specs.Cmp.{partial_equiv_from_equiv};
ghost use Rattle.rtc_change.specs.EqualOffers.{same_pending, same_pending_equiv};

use crate::Changes;
use rtc_sdp_values::{Direction, Mid};
use rtc_wire::Seq;
use std::marker::Model;

/// What an offerer keeps until it accepts the answer, or rolls the offer back.
///
/// Either consumes it, and it cannot be copied.
#[derive(Debug)]
pub struct SdpPendingOffer {
    change_id: u64,
    changes: Changes,
    sctp_init: bool,
    undo: Seq<(Mid, Direction, bool)>,
}

// Written out, so that the proof of what owns a token sees one call and not the drop of each field.
impl Drop for SdpPendingOffer {
    fn drop(self) {
        let SdpPendingOffer {
            change_id: _change_id,
            changes: _changes,
            sctp_init: _sctp_init,
            undo: _undo,
        } = self;
    }
}

impl Model for SdpPendingOffer {
    ghost use Rattle.rtc_change.specs.PendingOffer.{PendingOffer};

    ghost Value = { PendingOffer };

    ghost view = { λ token. record {
      id = token.change_id;
      changes = token.changes.0;
      says_init = token.sctp_init;
      undo = token.undo;
    } };
}

// Two tokens are equal if all that they keep is.
impl PartialEq for SdpPendingOffer {
    ghost eq = { same_pending };

    ghost laws = { partial_equiv_from_equiv same_pending_equiv };

    fn eq(&self, other: &SdpPendingOffer) -> bool {
        self.change_id == other.change_id
            && self.changes.0 == other.changes.0
            && self.sctp_init == other.sctp_init
            && self.undo == other.undo
    }
}

impl Eq for SdpPendingOffer {
    ghost laws = { same_pending_equiv };
}

impl SdpPendingOffer {
    /// The token of an offer: the counter as it was applied, its changes, whether it had an `a=sctp-init`, and each row that was set
    /// or stopped for it, by its mid, with its direction and whether it was stopped before.
    pub fn new(
        id: u64,
        changes: Changes,
        sctp_init: bool,
        undo: Seq<(Mid, Direction, bool)>,
    ) -> SdpPendingOffer
        ensures { result ≡ record { id = id; changes = changes.0; says_init = sctp_init; undo = undo } }
    {
        SdpPendingOffer {
            change_id: id,
            changes,
            sctp_init,
            undo,
        }
    }

    pub fn change_id(&self) -> u64
        ensures { result ≡ self.now.id }
    {
        self.change_id
    }

    pub fn changes(&self) -> &Changes
        ensures { result.now.0 ≡ self.now.changes }
    {
        &self.changes
    }

    /// Whether its offer had an `a=sctp-init` (draft-hancke-tsvwg-snap).
    pub fn has_sctp_init(&self) -> bool
        ensures { result ≡ self.now.says_init }
    {
        self.sctp_init
    }

    /// The rows that were set or stopped for its offer, as they were before: the mid of each, its direction, and whether it was stopped.
    pub fn undo(&self) -> &[(Mid, Direction, bool)]
        ensures { result.now ≡ self.now.undo }
    {
        self.undo.as_slice()
    }

    /// The changes, without a copy. The token is spent.
    pub fn into_changes(self) -> Changes
        ensures { result.0 ≡ self.changes }
    {
        let SdpPendingOffer {
            change_id: _change_id,
            changes,
            sctp_init: _sctp_init,
            undo: _undo,
        } = self;
        changes
    }
}
