//! The type of an element.

ghost use Rattle.std.specs.Prelude.{◌^◌, ◌<◌};

/// An element of the field with 2^M elements, held as its number.
#[derive(Clone, Copy, Debug, PartialEq, Eq)]
pub struct Gf<const M: u32> {
    pub(crate) value: u8,
    ghost in_range: { value < 2 ^ M },
}
