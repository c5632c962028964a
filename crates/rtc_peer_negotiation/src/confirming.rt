//! Channels that are confirmed.
ghost use Rattle.std.specs.Prelude.{◌≡◌, ◌∷◌, []};
ghost use Rattle.rtc_change.specs.declared.change.Change.TheVariants.{AddChannel};
ghost use Rattle.rtc_channels.specs.Channels.{all_confirmed};
ghost use Rattle.rtc_peer_core.specs.Calls.{fitting_channels};

use rtc_change::{Change, Changes};
use rtc_channels::ChannelHandler;
use rtc_wire::{ChannelConfig, ChannelId};

fn confirm_channel(channels: &mut ChannelHandler, id: ChannelId, config: ChannelConfig)
    ensures { channels.new ≡ all_confirmed (fitting_channels (AddChannel id config ∷ [])) channels.old }
{
    if !config.fits_open_message() {
        return;
    }
    if !channels.has_channel(id) {
        return;
    }
    channels.confirm(id, config);
}

fn confirm_change(channels: &mut ChannelHandler, change: Change)
    ensures { channels.new ≡ all_confirmed (fitting_channels (change ∷ [])) channels.old }
{
    match change {
        Change::AddChannel(id, config) => confirm_channel(channels, id, config),
        Change::AddMedia(media) => drop(media),
        Change::IceRestart(creds, _) => drop(creds),
        Change::AddApp(_) | Change::Direction(_, _) => {}
    }
}

/// Confirms the channels that changes add, if they are still there. Nothing is allocated.
pub fn confirm_channels(channels: &mut ChannelHandler, changes: Changes)
    ensures { channels.new ≡ all_confirmed (fitting_channels changes.0) channels.old }
{
    for change in changes.0.into_vec() {
        confirm_change(channels, change);
    }
}
