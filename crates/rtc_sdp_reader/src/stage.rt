//! The stage of a reading.
use rtc_sdp_grammar::MediaHead;

/// What the reader of a session description waits for; empty lines leave it.
///
/// AwaitVersion --`v=0`--> AwaitOrigin --`o=`--> InSession --`m=`--> InLine --`m=`--> InLine
#[derive(Debug, Drop)]
pub enum Stage {
    /// For the `v=` line.
    AwaitVersion,
    /// For the `o=` line.
    AwaitOrigin,
    /// For a line of the session part.
    InSession,
    /// For a line of the line part that this `m=` line began.
    InLine(MediaHead),
}
