//! Kinds of session descriptions.

/// Which kind of session description is to be read. Both have one grammar.
#[derive(Clone, Copy)]
pub enum SdpKind {
    Offer,
    Answer,
}
