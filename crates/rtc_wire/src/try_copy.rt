//! Copies that may lack memory.
ghost use Rattle.std.specs.Prelude.{◌≡◌, IfOk};

use std::alloc::{AllocError, Global};

/// A value that is copied with memory of its own, taken from the allocator that the value keeps.
pub trait TryCopy {
    /// An equal value.
    fn copy(&self) -> Result<Self, AllocError>
        ensures { IfOk result (λ copied. copied ≡ self.now) };
}

/// A copy of each item, in order.
pub fn copy_all<T: TryCopy + Drop>(alloc: Global, items: &[T]) -> Result<Vec<T>, AllocError>
    ensures { IfOk result (λ copies. copies.items ≡ items.now) }
{
    let mut copies = Vec::with_capacity(alloc, items.len())?;
    for item in items {
        let copied = item.copy()?;
        copies.push(copied)?;
    }
    Ok(copies)
}

impl TryCopy for bool {
    fn copy(&self) -> Result<bool, AllocError> {
        Ok(*self)
    }
}

impl TryCopy for u8 {
    fn copy(&self) -> Result<u8, AllocError> {
        Ok(*self)
    }
}

impl TryCopy for u16 {
    fn copy(&self) -> Result<u16, AllocError> {
        Ok(*self)
    }
}

impl TryCopy for u32 {
    fn copy(&self) -> Result<u32, AllocError> {
        Ok(*self)
    }
}

impl TryCopy for u64 {
    fn copy(&self) -> Result<u64, AllocError> {
        Ok(*self)
    }
}

impl<T: TryCopy> TryCopy for Option<T> {
    fn copy(&self) -> Result<Option<T>, AllocError> {
        match self {
            None => Ok(None),
            Some(value) => Ok(Some(value.copy()?)),
        }
    }
}

impl<A: TryCopy + Drop, B: TryCopy> TryCopy for (A, B) {
    fn copy(&self) -> Result<(A, B), AllocError> {
        let first = self.0.copy()?;
        let second = self.1.copy()?;
        Ok((first, second))
    }
}
