//! Attributes that refuse a text.

/// An attribute that refuses the text if its value is malformed.
#[derive(Clone, Copy, Debug, PartialEq, Eq)]
pub enum Strict {
    Mid,
    Group,
    Setup,
    Fingerprint,
    MessageSize,
}
