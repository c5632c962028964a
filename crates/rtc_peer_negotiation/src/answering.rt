//! The answer of a peer.
ghost use Rattle.std.specs.Prelude.{◌≡◌, IfOk, true};
ghost use Rattle.rtc_change.specs.TableAfter.{table_after};
ghost use Rattle.rtc_peer_rows.specs.ParsedLines.{parsed_lines};
ghost use Rattle.rtc_peer_core.specs.MadeSdp.{answer_head, answer_sdp};
ghost use Rattle.rtc_peer_core.specs.Meanings.{meanings};
ghost use Rattle.rtc_peer_core.specs.Stance.{stance_of};

use crate::copying::lend_restart;
use rtc_parts::{Association, DtlsInstance, IceAgent, Ids, MediaSession, MediaUpdate};
use rtc_peer_core::{Peer, SdpHead};
use rtc_peer_sdp::{make_head, make_sdp, role_after, setup_of_role, tell_rows};
use rtc_sdp_values::{IceCreds, LineRow, Sdp};
use rtc_wire::Text;
use std::alloc::AllocError;

// What the answer of a peer carries of it.
fn make_answer_head<I: IceAgent, D: DtlsInstance, S: Association, M: MediaSession, N: Ids>(
    peer: &Peer<I, D, S, M, N>,
    restart: &Option<(IceCreds, bool)>,
    init: Option<Text>,
    offer: &Sdp,
) -> Result<SdpHead, AllocError>
    ensures { IfOk result (λ head. head
        ≡ answer_head (stance_of (meanings I.ice D.dtls S.association M.media N.ids) peer.now) restart.now init offer.now) }
{
    let active = role_after(peer.dtls.is_active(), offer.setup());
    make_head(
        peer.alloc,
        peer.session_id,
        &peer.ice,
        &peer.dtls,
        setup_of_role(active),
        lend_restart(restart),
        peer.sctp.local_max_message_size(),
        init,
    )
}

/// The answer to an offer that leaves these rows. The media part is given this of its lines.
#[tactic(auto, unfolding(rtc_peer_core::specs::MadeSdp::answer_sdp))]
pub fn make_answer<I: IceAgent, D: DtlsInstance, S: Association, M: MediaSession, N: Ids>(
    peer: &Peer<I, D, S, M, N>,
    restart: &Option<(IceCreds, bool)>,
    offer: &Sdp,
    rows: &[LineRow],
    updates: &[MediaUpdate],
    init: Option<Text>,
) -> Result<Sdp, AllocError>
    requires { rows.now ≡ table_after peer.now.lines (parsed_lines offer.now) true }
    ensures { IfOk result (λ answer. answer
        ≡ answer_sdp (stance_of (meanings I.ice D.dtls S.association M.media N.ids) peer.now) restart.now updates.now init offer.now) }
{
    let told = match tell_rows(peer.alloc, &peer.formats, &peer.media, updates, rows) {
        Ok(told) => told,
        Err(error) => {
            drop(init);
            return Err(error);
        }
    };
    match make_answer_head(peer, restart, init, offer) {
        Ok(head) => make_sdp(peer.alloc, head, told),
        Err(error) => {
            drop(told);
            Err(error)
        }
    }
}
