//! Whoever takes bytes piece by piece.

ghost use Rattle.std.specs.Prelude.{◌≡◌, ◌+◌, ◌<◌, ◌^◌, ◌++◌, ℕ, List, Bool, true, false, length, IsErr, OnOk, OnErr, if◌then◌else◌};
ghost use Rattle.std.specs.Result.{is_ok};

use lists::Memory;

/// A reader of bytes that come in pieces, cut anywhere.
///
/// It stands for the bytes that it took, it counts them, and it is spent once memory was wanting: what it stands for is then
/// not known any more.
pub trait Taker {
    ghost stands: { Self → List ℕ → Type 0 };

    ghost spent: { Self → Bool };

    ghost taken: { Self → ℕ };

    /// Takes the next piece. The only refusal is want of memory, also where it was spent before.
    fn take(&mut self, piece: &[u8]) -> Result<(), Memory>
        requires { taken self.old + length piece.now < 2 ^ 32 }
        ensures stands { (before : List ℕ) → stands self.old before
            → OnOk result (stands self.new (before ++ piece.now)) }
        ensures taken { taken self.new
            ≡ (if is_ok result then taken self.old + length piece.now else taken self.old) }
        ensures fresh { OnOk result (spent self.new ≡ false) }
        ensures spent { OnErr result (spent self.new ≡ true) }
        ensures stays_spent { spent self.old ≡ true → IsErr result };
}
