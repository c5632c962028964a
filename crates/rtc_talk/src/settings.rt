//! Peers with settings by words.
use rtc::{Addr, PlainRtc, RtcConfig, RtcError, build_plain_peer};
use std::alloc::{AllocError, Global};

fn set(config: RtcConfig, word: &str) -> Result<RtcConfig, AllocError> {
    match word {
        "session-ids" => Ok(config.set_session_extension_ids(true)),
        "lite" => Ok(config.set_ice_lite(true)),
        "snap" => Ok(config.set_snap_enabled(true)),
        "polite" => Ok(config.set_polite(Some(true))),
        "impolite" => Ok(config.set_polite(Some(false))),
        "no-codecs" => Ok(config.clear_codecs()),
        "opus" => config.enable_opus(true, false),
        "pcmu" => config.enable_pcmu(true, false),
        "vp8" => config.enable_vp8(true),
        "h264" => config.enable_h264(true),
        _ => Ok(config),
    }
}

fn configure(alloc: Global, words: &str) -> Result<RtcConfig, AllocError> {
    let mut config = PlainRtc::builder(alloc)?;
    for word in words.split(' ') {
        config = set(config, word)?;
    }
    Ok(config)
}

/// A peer with these settings, at an address of the loopback.
pub fn make_peer(alloc: Global, words: &str) -> Result<PlainRtc, RtcError> {
    let config = configure(alloc, words)?;
    let address = Addr {
        ip: [127, 0, 0, 1],
        port: 40_000,
    };
    let peer = build_plain_peer(alloc, config, 1, address)?;
    Ok(peer)
}
