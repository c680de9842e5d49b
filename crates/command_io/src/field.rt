//! The choice of the field, which every command makes here.

/// Calls an operation that is generic in the field, over the field with 2^`bits` elements. `bits` is 4 to 8: the bits of a symbol of a
/// register or a title. The operation's other type parameters stand in the brackets; `Gf` is that of `gf2m`, which the caller imports.
#[macro_export]
macro_rules! over_field {
    ($bits:expr, $operation:ident, [$($parameter:ty),*], ($($argument:expr),*)) => {
        match $bits {
            4 => $operation::<Gf<4>, $($parameter),*>($($argument),*),
            5 => $operation::<Gf<5>, $($parameter),*>($($argument),*),
            6 => $operation::<Gf<6>, $($parameter),*>($($argument),*),
            7 => $operation::<Gf<7>, $($parameter),*>($($argument),*),
            _ => $operation::<Gf<8>, $($parameter),*>($($argument),*),
        }
    };
}
