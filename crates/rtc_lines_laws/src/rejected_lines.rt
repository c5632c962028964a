//! What becomes of an offer of which lines are rejected before it is accepted (RFC 3264, section 6).
ghost use Rattle.std.specs.Prelude.{◌≡◌, ℕ, List, [], Some};
ghost use Rattle.rtc_lines.specs.Rejecting.{mids_without_codec, offer_rejecting};
ghost use Rattle.rtc_lines_laws.specs.RejectedLines.{IsLeftOf};
ghost use Rattle.rtc_sdp_values.specs.declared.payload_row.PayloadRow.{PayloadRow};
ghost use Rattle.rtc_sdp_values.specs.declared.sdp.Sdp.{Sdp};

/// If lines of an offer are rejected by their mids, negotiation reads them as rejected, and each other line as in the offer. All are in
/// their places, and one is live.
pub fn rejected_lines_are_read_as_rejected()
    ensures { (mids : List (List ℕ)) (offer left : Sdp) → offer_rejecting mids offer ≡ Some left → IsLeftOf mids offer left }
{}

/// If the lines that share no codec with a configuration are rejected, none of those that are left live lacks one.
pub fn left_lines_have_codecs()
    ensures { (rows : List PayloadRow) (offer left : Sdp)
        → offer_rejecting (mids_without_codec rows offer.groups offer.lines) offer ≡ Some left
        → mids_without_codec rows left.groups left.lines ≡ [] }
{}
