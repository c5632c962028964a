//! The configs of the peers of the examples.
use crate::codecs::own_codecs;
use crate::direct_examples::creds;
use rtc_peer::{CodecConfig, RtcConfig};
use rtc_wire::Span;
use std::alloc::{AllocError, Global};

fn with_codecs(
    mut config: RtcConfig,
    codecs: Result<CodecConfig, AllocError>,
) -> Result<Option<RtcConfig>, AllocError> {
    *config.codec_config() = codecs?;
    Ok(Some(config))
}

// The certificate `abc`, and SNAP enabled or not.
fn certified(
    alloc: Global,
    config: RtcConfig,
    snap: bool,
) -> Result<Option<RtcConfig>, AllocError> {
    let cert = Vec::from_slice(alloc, b"abc")?;
    Ok(Some(config.set_dtls_cert(cert).set_snap_enabled(snap)))
}

// The credentials `own`.
fn known(alloc: Global, config: RtcConfig) -> Result<Option<RtcConfig>, AllocError> {
    let own = creds(alloc, "own", "ownpassword")?;
    Ok(Some(config.set_local_ice_credentials(own)))
}

// A peer buffers as much as its longest message is.
fn with_room(config: RtcConfig) -> Option<RtcConfig> {
    Some(config.set_sctp_max_buffered_amount(262_144))
}

// The setting of an example.
fn with_setting(mut config: RtcConfig, name: &str) -> Option<RtcConfig> {
    match name {
        "cut messages for short datagrams" => Some(config.set_mtu((576, 1400))),
        "of another certificate that is not verified" => {
            Some(config.set_fingerprint_verification(false))
        }
        "in RTP mode" => Some(config.set_rtp_mode(true)),
        "of check times" => {
            config.set_initial_stun_rto(Span::from_millis(100));
            Some(config)
        }
        "of header extensions" => {
            config.extension_map().rows.clear();
            Some(config)
        }
        "of raw packets" => Some(config.enable_raw_packets(true)),
        _ => None,
    }
}

/// The config of the left peer, if it is not the default one.
pub fn left_config(
    alloc: Global,
    subject: &str,
    name: &str,
) -> Result<Option<RtcConfig>, AllocError> {
    match (subject, name) {
        ("codecs", _) => with_codecs(RtcConfig::new(alloc)?, own_codecs(alloc)),
        ("offers", "of a channel are written") => certified(alloc, RtcConfig::new(alloc)?, false),
        ("offers", "tell a start") => certified(alloc, RtcConfig::new(alloc)?, true),
        ("work", _) => Ok(with_room(RtcConfig::new(alloc)?)),
        ("settings", "of credentials") => known(alloc, RtcConfig::new(alloc)?),
        ("announced", "of another certificate that is not verified")
        | ("connected", "cut messages for short datagrams")
        | ("built" | "settings", _) => Ok(with_setting(RtcConfig::new(alloc)?, name)),
        _ => Ok(None),
    }
}

/// The config of the right peer, if it is not the default one.
pub fn right_config(alloc: Global, subject: &str) -> Result<Option<RtcConfig>, AllocError> {
    match subject {
        "work" => Ok(with_room(RtcConfig::new(alloc)?)),
        _ => Ok(None),
    }
}
