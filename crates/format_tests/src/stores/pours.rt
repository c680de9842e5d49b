//! Blobs poured into a taker that wants memory in the middle.

ghost use Rattle.std.specs.Prelude.{◌≡◌, ◌<◌, ◌^◌};

use lists::Memory;
use shelf_io::{FetchError, MemShelf, Taker, pour};
use std::alloc::Global;
use std::test::Fail;

/// A taker that keeps nothing of what it takes, and has room for so many bytes.
#[derive(Drop)]
struct Narrow {
    room: usize,
    taken: usize,
    spent: bool,
}

impl Taker for Narrow {
    ghost use Rattle.std.specs.Prelude.{⊤};

    ghost stands = { λ narrow before. ⊤ };

    ghost spent = { λ narrow. narrow.spent };

    ghost taken = { λ narrow. narrow.taken };

    fn take(&mut self, piece: &[u8]) -> Result<(), Memory> {
        if self.spent || piece.len() > self.room {
            self.spent = true;
            return Err(Memory);
        }
        self.room -= piece.len();
        self.taken += piece.len();
        self.spent = false;
        Ok(())
    }
}

/// A shelf with a blob of four parts.
fn four_parts(alloc: Global) -> Result<MemShelf, Memory> {
    let mut bytes = Vec::new(alloc);
    for _ in 0..200_000 {
        bytes.push(7)?;
    }
    let mut shelf = MemShelf::new(alloc);
    shelf.hold("long", bytes.as_slice())?;
    Ok(shelf)
}

#[test]
fn a_taker_wants_memory_in_the_middle(rt: HostRuntime) -> Result<(), Fail> {
    let alloc = rt.alloc();
    let mut shelf = four_parts(alloc)?;
    let mut narrow = Narrow {
        room: 150_000,
        taken: 0,
        spent: false,
    };
    let first = pour(alloc, &mut shelf, "long", 200_000, &mut narrow);
    assert_eq!(rt; first, Err(FetchError::Memory));
    assert!(rt; narrow.spent);
    assert_eq!(rt; narrow.taken, 131_072);
    if narrow.taken < 1_000_000 {
        let second = pour(alloc, &mut shelf, "long", 200_000, &mut narrow);
        assert_eq!(rt; second, Err(FetchError::Memory));
    }
    Ok(())
}
