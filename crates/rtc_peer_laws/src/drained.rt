//! What a peer returns that has nothing left to give.
ghost use Rattle.std.specs.Prelude.{◌≡◌, ◌≢◌, ◌≤◌, ◌-◌, ◌^◌, ℕ, None, Ok};
ghost use Rattle.rtc_peer_core.specs.Meanings.{meanings};
ghost use Rattle.rtc_peer_core.specs.declared.phase.Phase.TheVariants.{Closed};
ghost use Rattle.rtc_peer_transport.specs.declared.output.Output.TheVariants.{Timeout};
ghost use Rattle.rtc_peer_transport.specs.declared.polled_peer.PolledPeer.{PolledPeer as Polled};
ghost use Rattle.rtc_peer_polling.specs.Walk.{PollsPeer};
ghost use Rattle.rtc_peer_laws.specs.Drained.{AllHeard, AnswersAgain};

use rtc_parts::{Association, DtlsInstance, IceAgent, Ids, MediaSession};

/// A peer that returned a timeout, and is polled again without a call between, returns the same timeout for the same
/// reason, and nothing changes. Only out of memory may replace it, and not once the peer is closed.
pub fn drained_peers_rest<I: IceAgent, D: DtlsInstance, S: Association, M: MediaSession, N: Ids>()
    ensures again { (p q s : Polled I D S M N) (moment : ℕ) (answer : _)
        → PollsPeer (meanings I.ice D.dtls S.association M.media N.ids) p (Ok (Timeout moment)) q
        → PollsPeer (meanings I.ice D.dtls S.association M.media N.ids) q answer s → AnswersAgain moment q answer s }
    ensures closed { (p q s : Polled I D S M N) (moment : ℕ) (answer : _)
        → PollsPeer (meanings I.ice D.dtls S.association M.media N.ids) p (Ok (Timeout moment)) q → q.core.phase ≡ Closed
        → PollsPeer (meanings I.ice D.dtls S.association M.media N.ids) q answer s → (answer ≡ Ok (Timeout moment)) × (s ≡ q) }
{}

/// The timeout of a peer that is not closed is never before the greatest moment that it took, and a closed one wants none.
pub fn wakes_are_not_past<I: IceAgent, D: DtlsInstance, S: Association, M: MediaSession, N: Ids>()
    ensures live { (p q : Polled I D S M N) (moment : ℕ)
        → PollsPeer (meanings I.ice D.dtls S.association M.media N.ids) p (Ok (Timeout moment)) q → q.core.phase ≢ Closed
        → q.core.greatest ≤ moment }
    ensures closed { (p q : Polled I D S M N) (moment : ℕ)
        → PollsPeer (meanings I.ice D.dtls S.association M.media N.ids) p (Ok (Timeout moment)) q → q.core.phase ≡ Closed
        → moment ≡ 2 ^ 64 - 1 }
{}

/// Once a peer that is not closed returned a timeout, and no packet waits to be sent, its association gives nothing
/// more. Each stream in use then is in one of two states. It waits to be opened, which was refused and is tried again,
/// for less than ten seconds since the first refusal. Or it was opened, has the generation that its entry keeps, is not
/// to be closed, and every whole message of its generation was read.
pub fn drained_peers_have_heard<
    I: IceAgent,
    D: DtlsInstance,
    S: Association,
    M: MediaSession,
    N: Ids,
>()
    ensures { (p q : Polled I D S M N) (moment : ℕ)
        → PollsPeer (meanings I.ice D.dtls S.association M.media N.ids) p (Ok (Timeout moment)) q → q.core.phase ≢ Closed
        → q.core.sctp.pushed ≡ None → AllHeard S.association q.core.sctp }
{}
