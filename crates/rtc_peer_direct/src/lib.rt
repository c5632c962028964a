//! What a user does to a peer without session descriptions: functions over a peer that is polled.
#![tactic(auto)]

mod channel_making;
mod dtls_calls;
mod feedback;
mod ice_calls;
mod media_rows;
mod streams;

pub use channel_making::{create_data_channel, start_sctp, start_sctp_with_snap};
pub use dtls_calls::{set_remote_fingerprint, start_dtls};
pub use feedback::{
    draw_ssrc, enable_twcc_feedback, send_app_specific_feedback, send_pli_feedback, set_red_send,
};
pub use ice_calls::{
    copy_local_credentials, invalidate_candidate, set_ice_controlling, set_ice_lite,
    set_local_credentials, set_remote_credentials,
};
pub use media_rows::{declare_media, remove_media};
pub use streams::{
    lend_stream_rx, lend_stream_rx_by_mid, lend_stream_tx, lend_stream_tx_by_mid, lend_writer,
    make_stream_rx, make_stream_tx, remove_stream_rx, remove_stream_tx, reset_stream_tx,
};
