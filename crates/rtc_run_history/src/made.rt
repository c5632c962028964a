//! What a step makes of staged changes.

/// What a step made of the changes that its ops staged.
#[derive(Clone, Copy, Debug, PartialEq, Eq)]
pub enum Made {
    /// The step does not apply them, or memory ran out in an op.
    NotAsked,
    /// Nothing staged has to be offered.
    Nothing,
    /// The offer of this number.
    Offer(u32),
    /// There was too little memory, and nothing is applied.
    Alloc,
}
