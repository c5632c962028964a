//! Directions of layers.

/// Which way the layers of a list, or the layer of a `rid` attribute, go (RFC 8851, section 4).
#[derive(Clone, Copy, Debug, PartialEq, Eq)]
pub enum RidDirection {
    Send,
    Recv,
}
