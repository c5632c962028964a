//! The association as it is started by an offer or an answer.
ghost use Rattle.std.specs.Prelude.{◌≡◌, is_some};
ghost use Rattle.rtc_sdp_values.specs.Sdp.{max_message_size_of};
ghost use Rattle.rtc_peer_rows.specs.Table.{app_of};
ghost use Rattle.rtc_sctp.specs.Calls.{limit_or_default};
ghost use Rattle.rtc_peer_core.specs.PartMoves.{StartsSctp, remote_limit, dropped_halves, needs_start as NeedsStart};

use crate::starting::Starting;
use rtc_parts::Association;
use rtc_peer_rows::find_app;
use rtc_sctp::{RtcSctp, SctpError};
use rtc_sdp_values::{LineRow, Sdp};
use rtc_wire::Moment;

// The longest message that the other side takes, in bytes, if it announces one.
fn told_limit(size: Option<u64>) -> Option<u32>
    ensures { limit_or_default result ≡ remote_limit size }
{
    match size {
        None => None,
        Some(size) => {
            if size == 0 || size > 4_294_967_295 {
                return Some(u32::MAX);
            }
            Some(size as u32)
        }
    }
}

/// Whether a row is that of the data channels.
pub fn has_app(rows: &[LineRow]) -> bool
    ensures { result ≡ is_some (app_of rows.now) }
{
    match find_app(rows) {
        Some(_row) => true,
        None => false,
    }
}

// Whether these rows start the association.
fn needs_start<S: Association>(sctp: &RtcSctp<S>, rows: &[LineRow]) -> bool
    ensures { result ≡ NeedsStart S.association rows.now sctp.now }
{
    has_app(rows) && !sctp.is_inited()
}

// Drops the pending SNAP INIT chunks, or keeps them.
fn drop_pending<S: Association>(sctp: &mut RtcSctp<S>, drops: bool)
    ensures { sctp.new ≡ record sctp.old { snap = dropped_halves drops sctp.old.snap } }
{
    if drops {
        sctp.disable_pending_snap();
    }
}

/// Starts the association, if these rows are the first with an m-line of data channels.
pub fn start_sctp<S: Association>(
    sctp: &mut RtcSctp<S>,
    rows: &[LineRow],
    client: bool,
    now: Moment,
    sdp: &Sdp,
    starting: Starting,
) -> Result<(), SctpError>
    ensures { StartsSctp S.association sctp.old rows.now client now (remote_limit (max_message_size_of sdp.now)) starting.halves
        starting.drops result sctp.new }
{
    if !needs_start(sctp, rows) {
        drop_pending(sctp, starting.drops);
        return Ok(());
    }
    let limit = told_limit(sdp.max_message_size());
    sctp.init(client, now, starting.halves, limit)
}
