//! The codecs of a peer that chooses among those of an offer.
use rtc_peer::{CodecConfig, PayloadRow};
use rtc_sdp_codecs::Codec;
use rtc_wire::Seq;
use std::alloc::{AllocError, Global};

fn push_row(alloc: Global, rows: &mut Seq<PayloadRow>, codec: Codec) -> Result<(), AllocError> {
    let row = codec.row(alloc, false)?;
    rows.push(row)
}

/// VP8, then H264.
pub fn own_codecs(alloc: Global) -> Result<CodecConfig, AllocError> {
    let mut codecs = CodecConfig {
        rows: Seq::empty(alloc),
        red_distances: Seq::empty(alloc),
    };
    push_row(alloc, &mut codecs.rows, Codec::Vp8)?;
    push_row(alloc, &mut codecs.rows, Codec::H264)?;
    Ok(codecs)
}
