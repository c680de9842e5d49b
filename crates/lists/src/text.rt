//! A text that owns its bytes.

ghost use Rattle.std.specs.Prelude.{◌≡◌, length, IfOk};
ghost use Rattle.std.specs.String.{string_bytes};

use crate::memory::Memory;
use std::alloc::Global;
use std::marker::Model;

/// A text, which contracts see as the list of its bytes in UTF-8.
#[derive(Debug, Drop)]
pub struct Text {
    text: String,
}

impl Model for Text {
    ghost use Rattle.std.specs.Prelude.{ℕ, List};
    ghost use Rattle.std.specs.String.{string_bytes};

    ghost Value = { List ℕ };

    ghost view = { λ a. string_bytes a.text };
}

impl Text {
    /// The text of this string, which it takes over without taking memory.
    pub fn over(text: String) -> Self
        ensures { result ≡ string_bytes text }
    {
        Text { text }
    }

    /// A copy of this text. The only error is want of memory.
    pub fn of(alloc: Global, text: &str) -> Result<Text, Memory>
        ensures { IfOk result (λ t. t ≡ text.now) }
    {
        Ok(Text {
            text: String::from_str(alloc, text)?,
        })
    }

    /// The text itself.
    pub fn as_str(&self) -> &str
        ensures { result.now ≡ self.now }
    {
        self.text.as_str()
    }

    /// The number of bytes.
    pub fn len(&self) -> usize
        ensures { result ≡ length self.now }
    {
        self.text.len()
    }
}
