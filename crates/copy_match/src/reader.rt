//! What a copy shows of a title, while its segments come.

ghost use Rattle.std.specs.Prelude.{◌≡◌, ◌<◌, ◌≤◌, ◌+◌, ◌*◌, ℕ, List, [], ◌∷◌, ◌++◌, length, IfOk, slice_range, false, filter, slice_index_or};
ghost use Rattle.std.specs.List.{range_with_len};
ghost use Rattle.title_terms.specs.Designs.{places, symbols};
ghost use Rattle.copy_terms.specs.Copies.{only, word_of_copy};
ghost use Rattle.copy_match.specs.Readers.{HasSeen, only_flag, word_of_flags};

use blob_digests::Digest;
use lists::Memory;
use rs_code::Word;
use std::alloc::Global;
use std::marker::Model;
use title_store::Title;

/// Which variants of a title a copy's segments have shown so far: one flag a variant, in the order of the title's digests.
///
/// Contracts see it as the title and the flags. All its memory is taken when it is made.
#[derive(Drop)]
pub struct CopyReader<'t> {
    title: &'t Title,
    flags: Vec<bool>,
}

impl<'t> Model for CopyReader<'t> {
    ghost use Rattle.copy_match.specs.Readers.{Reader, IsReader};

    ghost Value = { Reader };

    ghost view = { λ r. record { title = r.title.now; flags = r.flags.items } };

    ghost invariant = { λ r. IsReader (record { title = r.title.now; flags = r.flags.items }) };
}

impl<'t> CopyReader<'t> {
    /// A reader that has seen nothing. The only error is want of memory.
    pub fn new(alloc: Global, title: &'t Title) -> Result<CopyReader<'t>, Memory>
        ensures title { IfOk result (λ reader. reader.title ≡ title.now) }
        ensures nothing { IfOk result (λ reader. HasSeen reader []) }
    {
        let count = title.places() as usize * symbols(title);
        let flags = vec![in alloc; false; count]?;
        Ok(CopyReader { title, flags })
    }

    /// Takes the digest of one more segment. Whatever the order and however often, what counts is which digests came.
    pub fn see(&mut self, digest: &Digest)
        ensures title { self.new.title ≡ self.old.title }
        ensures seen { (digests : List (List ℕ)) → HasSeen self.old digests
            → HasSeen self.new (digests ++ digest.now.bytes ∷ []) }
    {
        match self.title.find(digest) {
            Some((place, symbol)) => {
                let cell = place as usize * symbols(self.title) + symbol as usize;
                self.flags[cell] = true;
            }
            None => {}
        }
    }

    /// The word so far: at each place the only symbol that was shown, and nothing where none or several were. The only error is
    /// want of memory.
    pub fn word(&self, alloc: Global) -> Result<Word, Memory>
        ensures flags { IfOk result (λ word. word ≡ word_of_flags self.now) }
        ensures word { (digests : List (List ℕ)) → HasSeen self.now digests
            → IfOk result (λ word. word ≡ word_of_copy self.now.title digests) }
    {
        let count = self.title.places();
        let mut slots = Vec::with_capacity(alloc, count as usize)?;
        'places: for place in 0..count {
            let shown = only_flag(self.flags_at(place));
            slots.push(shown)?;
        }
        Word::of(alloc, slots.as_slice())
    }

    /// The flags of the variants of a place.
    fn flags_at(&self, place: u32) -> &[bool]
        requires { place < places self.now.title.design }
        ensures flags { result.now ≡ slice_range self.now.flags
            (place * symbols self.now.title.design)
            (place * symbols self.now.title.design + symbols self.now.title.design) }
        ensures long { length result.now ≡ symbols self.now.title.design }
    {
        let count = symbols(self.title);
        let from = place as usize * count;
        &self.flags[from..from + count]
    }
}

/// How many symbols there are, at most 256.
fn symbols(title: &Title) -> usize
    ensures number { result ≡ symbols title.now.design }
    ensures high { result ≤ 256 }
{
    1 << title.bits()
}

/// The number of the only flag that is set; `None` where none or several are.
fn only_flag(flags: &[bool]) -> Option<u8>
    requires { length flags.now ≤ 256 }
    ensures { result ≡ only_flag flags.now }
{
    let mut found = None;
    'flags: for (symbol, flag) in flags.iter().enumerate() {
        if *flag {
            if found.is_some() {
                return None;
            }
            found = Some(symbol as u8);
        }
    }
    found
}
