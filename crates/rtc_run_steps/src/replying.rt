//! Replies with the acting peer's lines and channels.
ghost use Rattle.std.specs.Prelude.{◌≡◌, ◌≤◌, ◌<◌, ◌+◌, ◌^◌, [], IfOk, OnOk, length, nat_lt, Some, None, vec_capacity, vec_len};
ghost use Rattle.rtc_run_history.specs.declared.outcome.Outcome.TheVariants.{Alloc};
ghost use Rattle.rtc_peer_core.specs.ChannelRows.{channel_rows};
ghost use Rattle.rtc_peer_core.specs.Meanings.{meanings};
ghost use Rattle.rtc_run_steps.specs.NoSuch.{IsNoSuch, IsUnread};
ghost use Rattle.rtc_run_steps.specs.ShownTable.{shown_table};

use crate::Room;
use rtc_channels::ChannelRow;
use rtc_peer::{Association, DtlsInstance, IceAgent, Ids, MediaSession, Rtc, RtcError};
use rtc_run_history::{Kept, Outcome, Reply, Table};
use rtc_sdp_values::{LineRow, SdpError};
use rtc_wire::Seq;
use std::alloc::{AllocError, Global};

/// Room for the table of a peer that gets so many lines and channels more.
#[tactic(auto, using(crate::proofs::ShownRows::rows_are_channels))]
pub fn room_for<I: IceAgent, D: DtlsInstance, S: Association, M: MediaSession, N: Ids>(
    alloc: Global,
    rtc: &Rtc<I, D, S, M, N>,
    lines: usize,
    channels: usize,
) -> Result<Room, AllocError>
    requires few_lines { lines < 2 ^ 63 }
    requires few_channels { channels < 2 ^ 63 }
    ensures no_lines { IfOk result (λ room. room.lines.items ≡ []) }
    ensures no_channels { IfOk result (λ room. room.channels.items ≡ []) }
    ensures lines { IfOk result (λ room. length rtc.now.core.lines + lines ≤ vec_capacity room.lines) }
    ensures channels { IfOk result (λ room. length rtc.now.core.channels.rows + channels ≤ vec_capacity room.channels) }
{
    let shown = rtc.channels()?.len();
    let lines = Vec::with_capacity(alloc, rtc.lines().rows().len() + lines)?;
    let channels = Vec::with_capacity(alloc, shown + channels)?;
    Ok(Room { lines, channels })
}

/// Room for the table of a peer that gets so many lines and channels more, and for one more session description behind those that
/// are kept.
pub fn make_room<I: IceAgent, D: DtlsInstance, S: Association, M: MediaSession, N: Ids>(
    alloc: Global,
    rtc: &Rtc<I, D, S, M, N>,
    lines: usize,
    channels: usize,
    sdps: &mut Vec<Kept>,
) -> Result<Room, AllocError>
    requires few_lines { lines < 2 ^ 63 }
    requires few_channels { channels < 2 ^ 63 }
    ensures no_lines { IfOk result (λ room. room.lines.items ≡ []) }
    ensures no_channels { IfOk result (λ room. room.channels.items ≡ []) }
    ensures lines { IfOk result (λ room. length rtc.now.core.lines + lines ≤ vec_capacity room.lines) }
    ensures channels { IfOk result (λ room. length rtc.now.core.channels.rows + channels ≤ vec_capacity room.channels) }
    ensures one_more { OnOk result (vec_len sdps.new < vec_capacity sdps.new) }
    ensures kept { sdps.new.items ≡ sdps.old.items }
{
    let room = room_for(alloc, rtc, lines, channels)?;
    sdps.reserve(1)?;
    Ok(room)
}

// Whether a peer has fewer than `most` channels.
fn has_fewer_channels<I: IceAgent, D: DtlsInstance, S: Association, M: MediaSession, N: Ids>(
    rtc: &Rtc<I, D, S, M, N>,
    most: usize,
) -> bool
    ensures { result ≡ nat_lt (length rtc.now.core.channels.rows) most }
{
    if most == 0 {
        return false;
    }
    rtc.channel_row(most - 1).is_none()
}

/// Room for the row of one more channel, if there is room for those of all channels.
pub fn make_channel_room<I: IceAgent, D: DtlsInstance, S: Association, M: MediaSession, N: Ids>(
    rtc: &Rtc<I, D, S, M, N>,
    channels: &mut Vec<ChannelRow>,
) -> Result<(), AllocError>
    requires { length rtc.now.core.channels.rows ≤ vec_capacity channels.old }
    ensures rows { channels.new.items ≡ channels.old.items }
    ensures kept { vec_capacity channels.old ≤ vec_capacity channels.new }
    ensures more { OnOk result (length rtc.now.core.channels.rows + 1 ≤ vec_capacity channels.new) }
{
    let most = channels.capacity();
    if has_fewer_channels(rtc, most) {
        return Ok(());
    }
    let Some(more) = most.checked_add(1) else {
        return Err(AllocError);
    };
    channels.reserve(more)
}

// Copies the rows into `room`.
fn fill_lines(room: Vec<LineRow>, rows: &[LineRow]) -> Seq<LineRow>
    requires empty { room.items ≡ [] }
    requires room { length rows.now ≤ vec_capacity room }
    ensures { result ≡ rows.now }
{
    let mut room = room;
    for row in rows {
        room.push_reserved(*row);
    }
    Seq::new(room)
}

// Puts the rows of the channels into `room`.
fn fill_channels<I: IceAgent, D: DtlsInstance, S: Association, M: MediaSession, N: Ids>(
    room: Vec<ChannelRow>,
    rtc: &Rtc<I, D, S, M, N>,
) -> Seq<ChannelRow>
    requires empty { room.items ≡ [] }
    requires room { length rtc.now.core.channels.rows ≤ vec_capacity room }
    ensures { result ≡ channel_rows S.association rtc.now.core.sctp rtc.now.core.channels }
{
    let mut room = room;
    let most = room.capacity();
    for k in 0..most {
        let Some(row) = rtc.channel_row(k) else {
            return Seq::new(room);
        };
        room.push_reserved(row);
    }
    Seq::new(room)
}

/// The reply with an outcome and the table of a peer.
pub fn reply_with<I: IceAgent, D: DtlsInstance, S: Association, M: MediaSession, N: Ids>(
    outcome: Outcome<M::E>,
    room: Room,
    rtc: &Rtc<I, D, S, M, N>,
) -> Reply<M::E>
    requires no_lines { room.lines.items ≡ [] }
    requires no_channels { room.channels.items ≡ [] }
    requires lines { length rtc.now.core.lines ≤ vec_capacity room.lines }
    requires channels { length rtc.now.core.channels.rows ≤ vec_capacity room.channels }
    ensures outcome { result.outcome ≡ outcome }
    ensures table { result.table ≡ Some (shown_table S.association rtc.now.core) }
{
    let lines = fill_lines(room.lines, rtc.lines().rows());
    let channels = fill_channels(room.channels, rtc);
    Reply {
        outcome,
        table: Some(Table { lines, channels }),
    }
}

/// The reply to a step that did nothing, since memory ran out.
pub fn reply_no_memory<E>() -> Reply<E>
    ensures outcome { result.outcome ≡ Alloc }
    ensures table { result.table ≡ None }
{
    Reply {
        outcome: Outcome::Alloc,
        table: None,
    }
}

/// The reply to a step that names what is not there.
pub fn reply_no_such<I: IceAgent, D: DtlsInstance, S: Association, M: MediaSession, N: Ids>(
    alloc: Global,
    rtc: &Rtc<I, D, S, M, N>,
) -> Reply<M::E>
    ensures { IsNoSuch (meanings I.ice D.dtls S.association M.media N.ids) rtc.now.core result.outcome result.table }
{
    match room_for(alloc, rtc, 0, 0) {
        Ok(room) => reply_with(Outcome::NoSuch, room, rtc),
        Err(_) => reply_no_memory(),
    }
}

/// The reply to a step whose session description cannot be read from this line on.
pub fn reply_unread<I: IceAgent, D: DtlsInstance, S: Association, M: MediaSession, N: Ids>(
    alloc: Global,
    rtc: &Rtc<I, D, S, M, N>,
    line: u32,
) -> Reply<M::E>
    ensures { IsUnread (meanings I.ice D.dtls S.association M.media N.ids) line rtc.now.core result.outcome result.table }
{
    match room_for(alloc, rtc, 0, 0) {
        Ok(room) => reply_with(
            Outcome::Refused(RtcError::Sdp(SdpError::Parse(line))),
            room,
            rtc,
        ),
        Err(_) => reply_no_memory(),
    }
}
