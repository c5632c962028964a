//! Why lines refuse texts.

/// Why a line refuses a session description.
#[derive(Clone, Copy)]
pub enum Cause {
    /// The first line is not `v=0`.
    NoVersion,
    /// The second line is no `o=` line of its form.
    NoOrigin,
    /// The line has no form.
    NoForm,
    /// The `m=` line or the attribute has not its form.
    Malformed,
    /// The part of the `m=` line has not exactly one `mid` line.
    NotOneMid,
}
