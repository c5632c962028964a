//! Examples by their names.
use std::rt::Files;

/// Stored examples, each named by a subject and a name of its own.
pub trait Examples {
    /// Whether an example gives what is expected. One for which there is no memory does not.
    fn does_agree<R: Files + AllocGlobal>(rt: &R, subject: &str, name: &str) -> bool;
}
