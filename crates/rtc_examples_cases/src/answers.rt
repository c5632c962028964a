//! Results of calls. A call that was refused, or that ran out of memory, gives nothing of what is expected.

/// Whether all of these hold.
pub fn every(answers: &[bool]) -> bool {
    for answer in answers {
        if !*answer {
            return false;
        }
    }
    true
}

/// Whether a call succeeded.
pub fn is_ok<T: Drop, E: Drop>(answer: Result<T, E>) -> bool {
    answer.is_ok()
}

/// Whether a call returned that something holds.
pub fn is_true<E: Drop>(answer: Result<bool, E>) -> bool {
    match answer {
        Ok(holds) => holds,
        Err(_) => false,
    }
}

/// Whether a call returned this.
pub fn gives<T: PartialEq + Drop, E: Drop>(answer: Result<T, E>, expected: &T) -> bool {
    match answer {
        Ok(given) => given == *expected,
        Err(_) => false,
    }
}

/// Whether a call was refused with this error.
pub fn is_refused<T: Drop, E: PartialEq + Drop>(answer: Result<T, E>, expected: &E) -> bool {
    match answer {
        Ok(_) => false,
        Err(error) => error == *expected,
    }
}
