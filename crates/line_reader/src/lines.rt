//! A text, and how far it is read.

ghost use Rattle.std.specs.Prelude.{◌≡◌, ◌+◌, ◌<◌, ◌≤◌, ◌^◌, ◌==◌, length, OnOk};
ghost use Rattle.form_terms.specs.TextLines.{number_after};
ghost use Rattle.form_terms.specs.Forms.{before, fault, next_line, row};
ghost use Rattle.line_reader.specs.Finds.{Finds};

use crate::cutting::cut_line;
use crate::words::number_after;
use form_terms::{LineFault, RowKinds};
use std::marker::Model;

/// The lines of a text that are not read yet. Contracts see it as the place in the text: how many lines were read, the
/// lines behind them, and the bytes behind the last line feed.
#[derive(Drop)]
pub struct Lines<'a> {
    rest: &'a [u8],
    number: u32,
}

impl<'a> Model for Lines<'a> {
    ghost use Rattle.form_terms.specs.TextLines.{ended_lines, rest_of};
    ghost use Rattle.form_terms.specs.Forms.{Place, place};

    ghost Value = { Place };

    ghost view = { λ l. place l.number (ended_lines l.rest.now) (rest_of l.rest.now) };
}

impl<'a> Lines<'a> {
    /// The place in front of the text.
    #[tactic(auto, unfolding(form_terms::specs::Forms::before))]
    pub fn of(bytes: &'a [u8]) -> Self
        ensures { result ≡ before 0 bytes.now }
    {
        Lines {
            rest: bytes,
            number: 0,
        }
    }

    /// Whether no byte is left.
    #[tactic(auto, using(crate::proofs::Cuts::over_test))]
    pub fn is_over(&self) -> bool
        ensures { result ≡ (length self.now.lines + length self.now.tail == 0) }
    {
        self.rest.is_empty()
    }

    /// The text of the next line, which has to be there: a text that is over is refused as `missing`, bytes without a line
    /// feed as `unended`. After a refusal the place is where it was.
    pub fn next_line<K: Copy>(&mut self, missing: K, unended: K) -> Result<&'a [u8], LineFault<K>>
        requires room { self.old.number + 1 < 2 ^ 32 }
        ensures found { Finds (λ text. text.now) result self.old self.new
            (next_line missing unended) }
        ensures counted { OnOk result (self.new.number ≡ self.old.number + 1) }
        ensures fewer { OnOk result (length self.new.lines < length self.old.lines) }
    {
        match cut_line(self.rest) {
            Some((text, rest)) => {
                self.rest = rest;
                self.number += 1;
                Ok(text)
            }
            None if self.rest.is_empty() => Err(self.next_fault(missing)),
            None => Err(self.next_fault(unended)),
        }
    }

    /// The next line, where it is the word and a number.
    #[tactic(auto, unfolding(form_terms::specs::Forms::row, form_terms::specs::Forms::followed, form_terms::specs::Forms::said))]
    pub fn number_row<K: Copy>(
        &mut self,
        kinds: RowKinds<K>,
        word: &[u8],
    ) -> Result<u128, LineFault<K>>
        requires room { self.old.number + 1 < 2 ^ 32 }
        ensures found { Finds (λ n. n) result self.old self.new
            (row kinds (number_after word.now)) }
        ensures counted { OnOk result (self.new.number ≡ self.old.number + 1) }
    {
        let text = self.next_line(kinds.missing, kinds.unended)?;
        match number_after(word, text) {
            Some(number) => Ok(number),
            None => Err(self.fault(kinds.wrong)),
        }
    }

    /// The line that would be read next has this fault.
    fn next_fault<K>(&self, kind: K) -> LineFault<K>
        requires room { self.now.number + 1 < 2 ^ 32 }
        ensures { result ≡ fault (self.now.number + 1) kind }
    {
        LineFault {
            line: self.number + 1,
            kind,
        }
    }

    /// The line that was read last has this fault.
    pub fn fault<K>(&self, kind: K) -> LineFault<K>
        ensures { result ≡ fault self.now.number kind }
    {
        LineFault {
            line: self.number,
            kind,
        }
    }
}
