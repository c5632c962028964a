//! The streams of data channels over an association (RFC 8831, RFC 8832).
#![tactic(auto)]

mod agenda;
mod buffered;
mod events;
mod polls;
mod pushed_back;
mod rtc_sctp_state;
mod snap_calls;
mod starting;
mod stream_calls;
mod streams;
mod timing;
mod walk;
mod writing;

pub use rtc_sctp_entries::{BufferedThresholdConfig, SctpEvent, StreamEntry, StreamEntryState};
pub use rtc_sctp_state::RtcSctpState;
pub use rtc_sctp_values::{ProtoError, SctpError, SctpInitData};
pub use streams::RtcSctp;
