//! A name kept in bytes of its own, without taking memory.

ghost use Rattle.std.specs.Prelude.{◌≡◌, ◌≤◌, [], length};

use std::marker::Model;

/// A name of at most 1,024 bytes, which contracts see as the list of its bytes.
#[derive(Drop)]
pub(crate) struct NameBuffer {
    bytes: [u8; 1024],
    len: usize,
}

impl Model for NameBuffer {
    ghost use Rattle.std.specs.Prelude.{ℕ, List, ◌≤◌, take};

    ghost Value = { List ℕ };

    ghost view = { λ n. take n.len n.bytes };

    ghost invariant = { λ n. n.len ≤ 1024 };
}

impl NameBuffer {
    /// A buffer with the empty name.
    pub(crate) fn new() -> Self
        ensures { result ≡ [] }
    {
        NameBuffer {
            bytes: [0; 1024],
            len: 0,
        }
    }

    /// Puts this name in place of the one before.
    pub(crate) fn set(&mut self, name: &str)
        requires { length name.now ≤ 1024 }
        ensures { self.new ≡ name.now }
    {
        let bytes = name.as_bytes();
        self.bytes[..bytes.len()].copy_from_slice(bytes);
        self.len = bytes.len();
    }
}
