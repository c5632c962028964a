//! Bytes that fit the buffer of a poll.
ghost use Rattle.std.specs.Prelude.{◌≡◌, ◌≤◌, ◌+◌, ◌++◌, ◌∷◌, [], length, take, IfOk, if◌then◌else◌};

use rtc_wire::Bytes;
use std::alloc::{AllocError, Global};
use std::marker::Model;

/// At most 2000 bytes. A contract sees them as a list.
#[derive(Debug, Drop)]
pub struct Short {
    bytes: Bytes,
}

impl Model for Short {
    ghost use Rattle.std.specs.Prelude.{ℕ, List, ◌≤◌, length};

    ghost Value = { List ℕ };

    ghost view = { λ p. p.bytes };

    ghost invariant = { λ p. length p.bytes ≤ 2000 };
}

impl Short {
    /// A copy of these bytes.
    pub fn copied(alloc: Global, bytes: &[u8]) -> Result<Short, AllocError>
        requires { length bytes.now ≤ 2000 }
        ensures { IfOk result (λ made. made ≡ bytes.now) }
    {
        Ok(Short {
            bytes: Bytes::new(Vec::from_slice(alloc, bytes)?),
        })
    }

    /// A copy of these bytes behind those that mark what they are.
    pub fn marked(alloc: Global, marks: &[u8], bytes: &[u8]) -> Result<Short, AllocError>
        requires { length marks.now + length bytes.now ≤ 2000 }
        ensures { IfOk result (λ made. made ≡ marks.now ++ bytes.now) }
    {
        let mut items = Vec::with_capacity(alloc, marks.len() + bytes.len())?;
        items.extend_from_slice(marks)?;
        items.extend_from_slice(bytes)?;
        Ok(Short {
            bytes: Bytes::new(items),
        })
    }

    /// Writes them to the front of a buffer, and returns how many they are.
    pub fn put(&self, buf: &mut [u8]) -> usize
        requires { 2000 ≤ length buf.old }
        ensures front { take result buf.new ≡ self.now }
        ensures count { result ≡ length self.now }
        ensures short { result ≤ 2000 }
    {
        let bytes = self.bytes.as_slice();
        buf[..bytes.len()].copy_from_slice(bytes);
        bytes.len()
    }
}
