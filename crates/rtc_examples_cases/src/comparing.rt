//! What was made, beside what is expected of it.
use rtc_wire::TryCopy;
use std::alloc::Global;
use std::fmt::{Debug, Display};

/// Whether a copy of a value is equal to it.
pub fn is_copied<T: TryCopy + PartialEq + Drop>(value: &T) -> bool {
    match value.copy() {
        Ok(copied) => copied == *value,
        Err(_) => false,
    }
}

/// Whether a list has these items.
pub fn is_list<T: PartialEq + Drop, E: Drop>(made: Result<Vec<T>, E>, items: &[T]) -> bool {
    match made {
        Ok(made) => made.as_slice() == items,
        Err(_) => false,
    }
}

/// Whether a list has so many items.
pub fn has_length<T: Drop, E: Drop>(made: Result<Vec<T>, E>, length: usize) -> bool {
    match made {
        Ok(made) => made.len() == length,
        Err(_) => false,
    }
}

/// Whether a text is this one.
pub fn is_text<E: Drop>(made: Result<String, E>, text: &str) -> bool {
    match made {
        Ok(made) => made.as_str() == text,
        Err(_) => false,
    }
}

/// Whether a value prints this text.
pub fn prints<T: Display>(alloc: Global, value: &T, text: &str) -> bool {
    is_text(format!(in alloc; "{value}"), text)
}

/// Whether a value prints this text to those who look for faults.
pub fn shows<T: Debug>(alloc: Global, value: &T, text: &str) -> bool {
    is_text(format!(in alloc; "{value:?}"), text)
}
