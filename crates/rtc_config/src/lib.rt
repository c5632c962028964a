//! What a peer is built from, and the rounds of statistics.
#![tactic(auto)]

mod codec_setters;
mod dtls_settings;
mod extension_setters;
mod getters;
mod ice_settings;
mod lenders;
mod media_setters;
mod rtc_config;
mod sctp_settings;
mod setters;
mod stats;

pub use dtls_settings::DtlsSettings;
pub use ice_settings::IceSettings;
pub use rtc_config::RtcConfig;
pub use sctp_settings::SctpSettings;
pub use stats::Stats;
