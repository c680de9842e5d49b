//! Codes: the symbols of a message, and where it agrees with a word.

ghost use Rattle.std.specs.Prelude.{◌≡◌, ◌⊎◌, ◌↔◌, ◌+◌, ◌-◌, ◌*◌, ◌^◌, ◌<◌, ◌≤◌, IsTrue, IfOk, IsErrOf, OnOk, ℕ, length, map, slice_index, [], ◌∷◌, ◌++◌, if◌then◌else◌};
ghost use Rattle.code_terms.specs.Symbols.{coefficient, symbol_of, packed};
ghost use Rattle.code_terms.specs.Words.{agrees, places_of, agreement_of, codeword_of};
ghost use Rattle.rs_code.specs.CodeShape.{CodeShape};

use crate::Places;
use crate::code_error::CodeError;
use crate::word::{Word, append};
use code_terms::Message;
use gf2m::{Elements, Field, Products, Steps};
use lists::{Items, Memory};
use std::alloc::{AllocError, Global};
use std::marker::{Model, PhantomData};

/// A Reed-Solomon code over the field `F`, which contracts see as the numbers of its places and of a message's
/// coefficients. Place i has the field's element of number i for its point.
#[derive(Drop)]
pub struct Code<F: Field> {
    places: u32,
    dimension: u32,
    over: PhantomData<F>,
}

impl<F: Field> Model for Code<F> {
    ghost use Rattle.rs_code.specs.CodeShape.{CodeShape, IsCode};

    ghost Value = { CodeShape };

    ghost view = { λ c. record { places = c.places; dimension = c.dimension } };

    ghost invariant = { λ c. IsCode F.Q (record { places = c.places; dimension = c.dimension }) };
}

impl<F: Field> Code<F> {
    /// The code with `n` places whose messages have `k` coefficients. It takes no memory.
    pub fn new(n: u32, k: u32) -> Result<Code<F>, CodeError>
        ensures bad_k { IsErrOf result CodeError.BadK ↔ ((k < 2) ⊎ (13 < k)) }
        ensures bad_n { IsErrOf result CodeError.BadN
            ↔ ((2 ≤ k) × (k ≤ 13) × ((n < 1) ⊎ (F.Q < n))) }
        ensures made { IfOk result (λ code. code ≡ record { places = n; dimension = k }) }
    {
        if !(2..=13).contains(&k) {
            return Err(CodeError::BadK);
        }
        if !(1..=F::Q).contains(&n) {
            return Err(CodeError::BadN);
        }
        Ok(Code {
            places: n,
            dimension: k,
            over: PhantomData,
        })
    }

    /// The number of places.
    pub fn n(&self) -> u32
        ensures value { result ≡ self.now.places }
        ensures range { (1 ≤ result) × (result ≤ F.Q) }
    {
        self.places
    }

    /// The number of a message's coefficients.
    pub fn k(&self) -> u32
        ensures value { result ≡ self.now.dimension }
        ensures range { (2 ≤ result) × (result ≤ 13) }
    {
        self.dimension
    }

    /// Whether this code serves against coalitions of `c`.
    pub fn allows(&self, c: u32) -> bool
        ensures { IsTrue result ↔ ((1 ≤ c) × (c ≤ 8) × (c * (self.now.dimension - 1) ≤ 12)) }
    {
        (1..=8).contains(&c) && c * (self.dimension - 1) <= 12
    }

    /// The message's symbol at this place, by nested products from the last coefficient to the first.
    pub fn symbol<P: Products>(&self, message: Message, place: u32, prods: &mut Steps<P>) -> F
        requires place { place < self.now.places }
        requires message { message < 2 ^ (F.BITS * self.now.dimension) }
        ensures value { F.number result ≡ symbol_of F.BITS self.now.dimension message place }
        ensures products { prods.new ≤ prods.old + self.now.dimension }
    {
        let dimension = self.dimension;
        let point: F = point(place);
        let mut value = F::zero();
        'coefficients: for j in (0..dimension).rev() {
            value = value.mul(point, prods).add(coefficient(message, j));
        }
        value
    }

    /// In how many places the message and the word agree.
    pub fn agreement<P: Products>(&self, message: Message, word: &Word, prods: &mut Steps<P>) -> u32
        requires length { length word.now ≡ self.now.places }
        requires message { message < 2 ^ (F.BITS * self.now.dimension) }
        ensures value { result ≡ agreement_of F.BITS self.now.dimension message word.now }
        ensures products { prods.new ≤ prods.old + self.now.places * self.now.dimension }
    {
        let mut count = 0;
        for place in 0..self.places {
            if self.agrees(message, word, place, prods) {
                count += 1;
            }
        }
        count
    }

    /// The places where the message and the word agree, in ascending order.
    pub fn places<P: Products>(
        &self,
        alloc: Global,
        message: Message,
        word: &Word,
        prods: &mut Steps<P>,
    ) -> Result<Places, Memory>
        requires length { length word.now ≡ self.now.places }
        requires message { message < 2 ^ (F.BITS * self.now.dimension) }
        ensures value { IfOk result (λ places. places
            ≡ places_of F.BITS self.now.dimension message word.now) }
        ensures products { prods.new ≤ prods.old + self.now.places * self.now.dimension }
    {
        let mut places = Vec::new(alloc);
        for place in 0..self.places {
            let agrees = self.agrees(message, word, place, prods);
            push_if(&mut places, place as u16, agrees)?;
        }
        Ok(Items::over(places))
    }

    /// The message's symbols at all places, in order.
    pub fn codeword<P: Products>(
        &self,
        alloc: Global,
        message: Message,
        prods: &mut Steps<P>,
    ) -> Result<Word, Memory>
        requires { message < 2 ^ (F.BITS * self.now.dimension) }
        ensures value { IfOk result (λ word. word
            ≡ codeword_of F.BITS self.now.dimension message self.now.places) }
        ensures products { prods.new ≤ prods.old + self.now.places * self.now.dimension }
    {
        let mut slots = Vec::new(alloc);
        for place in 0..self.places {
            let symbol = self.symbol(message, place, prods);
            append(&mut slots, Some(symbol.to()))?;
        }
        Ok(Word::over(slots))
    }

    /// The message with these coefficients, of which the first is that at x^0; those that are missing are 0.
    pub fn pack(&self, coefs: &Elements<F>) -> Message
        requires { length coefs.now ≤ self.now.dimension }
        ensures value { result ≡ packed F.BITS (map F.number coefs.now) }
        ensures small { result < 2 ^ (F.BITS * self.now.dimension) }
        ensures coefficients { (j : ℕ)
            → coefficient F.BITS result j ≡ slice_index (map F.number coefs.now) j }
    {
        let _dimension = self.dimension;
        Message::of(packed_number(coefs.as_slice()))
    }

    /// Whether the word has the message's symbol at this place.
    fn agrees<P: Products>(
        &self,
        message: Message,
        word: &Word,
        place: u32,
        prods: &mut Steps<P>,
    ) -> bool
        requires place { place < self.now.places }
        requires message { message < 2 ^ (F.BITS * self.now.dimension) }
        ensures value { result ≡ agrees F.BITS self.now.dimension message word.now place }
        ensures products { prods.new ≤ prods.old + self.now.dimension }
    {
        match word.get(place) {
            Some(symbol) => symbol == self.symbol(message, place, prods).to(),
            None => false,
        }
    }
}

/// Coefficient j of the message, as an element.
fn coefficient<F: Field>(message: Message, j: u32) -> F
    requires { j < 13 }
    ensures { F.number result ≡ coefficient F.BITS message j }
{
    let number = (message.number() >> (F::BITS * j)) % F::Q as u128;
    F::of(number as u8).unwrap()
}

/// The element that stands for this place.
fn point<F: Field>(place: u32) -> F
    requires { place < F.Q }
    ensures { F.number result ≡ place }
{
    F::of(place as u8).unwrap()
}

/// The number of the message with these coefficients.
fn packed_number<F: Field>(coefs: &[F]) -> u128
    requires { length coefs.now ≤ 13 }
    ensures { result ≡ packed F.BITS (map F.number coefs.now) }
{
    let mut number: u128 = 0;
    'coefficients: for j in (0..coefs.len()).rev() {
        number = number * F::Q as u128 + coefs[j].to() as u128;
    }
    number
}

/// Puts the place behind the others where it is one of them.
fn push_if(places: &mut Vec<u16>, place: u16, is_one: bool) -> Result<(), AllocError>
    ensures { OnOk result (places.new.items
        ≡ places.old.items ++ (if is_one then place ∷ [] else [])) }
{
    if is_one {
        places.push(place)?;
    }
    Ok(())
}
