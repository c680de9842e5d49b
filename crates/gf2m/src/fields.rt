//! `Field` for the five fields. What an implementation does stands in `operations`, for all of them at once.

use crate::field::Field;
use crate::gf::Gf;
use crate::{operations, slices};
use steps::{Products, Steps};

impl Field for Gf<4> {
    ghost use Rattle.std.proofs.Common.{refl, lit≤, eqb-true, eq-eqb};
    ghost use Rattle.gf2m.specs.Elements.{element, field, ring, same_element};

    const BITS: u32 = 4;

    ghost BITS = { 4 };

    const Q: u32 = 16;

    ghost Q = { 16 };

    ghost number = { λ x. x.value };

    ghost ring = { ring 4 (lit≤ tt) (lit≤ tt) };

    fn zero() -> Self {
        operations::zero()
    }

    fn one() -> Self {
        operations::one()
    }

    fn of(value: u8) -> Option<Self> {
        operations::element_of(value)
    }

    fn to(self) -> u8 {
        self.value
    }

    fn add(self, other: Self) -> Self {
        operations::sum(self, other)
    }

    fn mul<P: Products>(self, other: Self, prods: &mut Steps<P>) -> Self {
        operations::product(self, other, prods)
    }

    fn inv<P: Products>(self, prods: &mut Steps<P>) -> Option<Self> {
        operations::inverse(self, prods)
    }

    fn add_multiple<P: Products>(
        target: &mut [Self],
        source: &[Self],
        factor: Self,
        prods: &mut Steps<P>,
    ) {
        slices::add_multiple(target, source, factor, prods)
    }

    ghost field = { field 4 (lit≤ tt) (lit≤ tt) };

    ghost number_plus = { λ x y. refl };

    ghost number_times = { λ x y. refl };

    ghost number_nil = { refl };

    ghost number_unit = { refl };

    ghost least_bits = { lit≤ tt };

    ghost most_bits = { lit≤ tt };

    ghost size = { refl };

    ghost below = { λ x. x.in_range };

    ghost same = { same_element 4 };

    ghost equal = { λ x y. (eqb-true x.value y.value, eq-eqb x.value y.value) };

    ghost every = { λ n h. (element 4 n h, refl) };
}

impl Field for Gf<5> {
    ghost use Rattle.std.proofs.Common.{refl, lit≤, eqb-true, eq-eqb};
    ghost use Rattle.gf2m.specs.Elements.{element, field, ring, same_element};

    const BITS: u32 = 5;

    ghost BITS = { 5 };

    const Q: u32 = 32;

    ghost Q = { 32 };

    ghost number = { λ x. x.value };

    ghost ring = { ring 5 (lit≤ tt) (lit≤ tt) };

    fn zero() -> Self {
        operations::zero()
    }

    fn one() -> Self {
        operations::one()
    }

    fn of(value: u8) -> Option<Self> {
        operations::element_of(value)
    }

    fn to(self) -> u8 {
        self.value
    }

    fn add(self, other: Self) -> Self {
        operations::sum(self, other)
    }

    fn mul<P: Products>(self, other: Self, prods: &mut Steps<P>) -> Self {
        operations::product(self, other, prods)
    }

    fn inv<P: Products>(self, prods: &mut Steps<P>) -> Option<Self> {
        operations::inverse(self, prods)
    }

    fn add_multiple<P: Products>(
        target: &mut [Self],
        source: &[Self],
        factor: Self,
        prods: &mut Steps<P>,
    ) {
        slices::add_multiple(target, source, factor, prods)
    }

    ghost field = { field 5 (lit≤ tt) (lit≤ tt) };

    ghost number_plus = { λ x y. refl };

    ghost number_times = { λ x y. refl };

    ghost number_nil = { refl };

    ghost number_unit = { refl };

    ghost least_bits = { lit≤ tt };

    ghost most_bits = { lit≤ tt };

    ghost size = { refl };

    ghost below = { λ x. x.in_range };

    ghost same = { same_element 5 };

    ghost equal = { λ x y. (eqb-true x.value y.value, eq-eqb x.value y.value) };

    ghost every = { λ n h. (element 5 n h, refl) };
}

impl Field for Gf<6> {
    ghost use Rattle.std.proofs.Common.{refl, lit≤, eqb-true, eq-eqb};
    ghost use Rattle.gf2m.specs.Elements.{element, field, ring, same_element};

    const BITS: u32 = 6;

    ghost BITS = { 6 };

    const Q: u32 = 64;

    ghost Q = { 64 };

    ghost number = { λ x. x.value };

    ghost ring = { ring 6 (lit≤ tt) (lit≤ tt) };

    fn zero() -> Self {
        operations::zero()
    }

    fn one() -> Self {
        operations::one()
    }

    fn of(value: u8) -> Option<Self> {
        operations::element_of(value)
    }

    fn to(self) -> u8 {
        self.value
    }

    fn add(self, other: Self) -> Self {
        operations::sum(self, other)
    }

    fn mul<P: Products>(self, other: Self, prods: &mut Steps<P>) -> Self {
        operations::product(self, other, prods)
    }

    fn inv<P: Products>(self, prods: &mut Steps<P>) -> Option<Self> {
        operations::inverse(self, prods)
    }

    fn add_multiple<P: Products>(
        target: &mut [Self],
        source: &[Self],
        factor: Self,
        prods: &mut Steps<P>,
    ) {
        slices::add_multiple(target, source, factor, prods)
    }

    ghost field = { field 6 (lit≤ tt) (lit≤ tt) };

    ghost number_plus = { λ x y. refl };

    ghost number_times = { λ x y. refl };

    ghost number_nil = { refl };

    ghost number_unit = { refl };

    ghost least_bits = { lit≤ tt };

    ghost most_bits = { lit≤ tt };

    ghost size = { refl };

    ghost below = { λ x. x.in_range };

    ghost same = { same_element 6 };

    ghost equal = { λ x y. (eqb-true x.value y.value, eq-eqb x.value y.value) };

    ghost every = { λ n h. (element 6 n h, refl) };
}

impl Field for Gf<7> {
    ghost use Rattle.std.proofs.Common.{refl, lit≤, eqb-true, eq-eqb};
    ghost use Rattle.gf2m.specs.Elements.{element, field, ring, same_element};

    const BITS: u32 = 7;

    ghost BITS = { 7 };

    const Q: u32 = 128;

    ghost Q = { 128 };

    ghost number = { λ x. x.value };

    ghost ring = { ring 7 (lit≤ tt) (lit≤ tt) };

    fn zero() -> Self {
        operations::zero()
    }

    fn one() -> Self {
        operations::one()
    }

    fn of(value: u8) -> Option<Self> {
        operations::element_of(value)
    }

    fn to(self) -> u8 {
        self.value
    }

    fn add(self, other: Self) -> Self {
        operations::sum(self, other)
    }

    fn mul<P: Products>(self, other: Self, prods: &mut Steps<P>) -> Self {
        operations::product(self, other, prods)
    }

    fn inv<P: Products>(self, prods: &mut Steps<P>) -> Option<Self> {
        operations::inverse(self, prods)
    }

    fn add_multiple<P: Products>(
        target: &mut [Self],
        source: &[Self],
        factor: Self,
        prods: &mut Steps<P>,
    ) {
        slices::add_multiple(target, source, factor, prods)
    }

    ghost field = { field 7 (lit≤ tt) (lit≤ tt) };

    ghost number_plus = { λ x y. refl };

    ghost number_times = { λ x y. refl };

    ghost number_nil = { refl };

    ghost number_unit = { refl };

    ghost least_bits = { lit≤ tt };

    ghost most_bits = { lit≤ tt };

    ghost size = { refl };

    ghost below = { λ x. x.in_range };

    ghost same = { same_element 7 };

    ghost equal = { λ x y. (eqb-true x.value y.value, eq-eqb x.value y.value) };

    ghost every = { λ n h. (element 7 n h, refl) };
}

impl Field for Gf<8> {
    ghost use Rattle.std.proofs.Common.{refl, lit≤, eqb-true, eq-eqb};
    ghost use Rattle.gf2m.specs.Elements.{element, field, ring, same_element};

    const BITS: u32 = 8;

    ghost BITS = { 8 };

    const Q: u32 = 256;

    ghost Q = { 256 };

    ghost number = { λ x. x.value };

    ghost ring = { ring 8 (lit≤ tt) (lit≤ tt) };

    fn zero() -> Self {
        operations::zero()
    }

    fn one() -> Self {
        operations::one()
    }

    fn of(value: u8) -> Option<Self> {
        operations::element_of(value)
    }

    fn to(self) -> u8 {
        self.value
    }

    fn add(self, other: Self) -> Self {
        operations::sum(self, other)
    }

    fn mul<P: Products>(self, other: Self, prods: &mut Steps<P>) -> Self {
        operations::product(self, other, prods)
    }

    fn inv<P: Products>(self, prods: &mut Steps<P>) -> Option<Self> {
        operations::inverse(self, prods)
    }

    fn add_multiple<P: Products>(
        target: &mut [Self],
        source: &[Self],
        factor: Self,
        prods: &mut Steps<P>,
    ) {
        slices::add_multiple(target, source, factor, prods)
    }

    ghost field = { field 8 (lit≤ tt) (lit≤ tt) };

    ghost number_plus = { λ x y. refl };

    ghost number_times = { λ x y. refl };

    ghost number_nil = { refl };

    ghost number_unit = { refl };

    ghost least_bits = { lit≤ tt };

    ghost most_bits = { lit≤ tt };

    ghost size = { refl };

    ghost below = { λ x. x.in_range };

    ghost same = { same_element 8 };

    ghost equal = { λ x y. (eqb-true x.value y.value, eq-eqb x.value y.value) };

    ghost every = { λ n h. (element 8 n h, refl) };
}
