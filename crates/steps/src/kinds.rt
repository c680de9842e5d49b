//! What the steps of a ledger stand for.

use std::marker::PhantomData;
use std::sync::ledger::Ledger;

/// A ledger whose steps are products and inverses in a field.
pub trait Products: Ledger {}

/// A ledger whose steps are looks into a register.
pub trait Looks: Ledger {}

/// The ledger `L`, kept for products and inverses in a field alone.
pub struct ProductLedger<L: Ledger> {
    ledger: PhantomData<L>,
}

impl<L: Ledger> Ledger for ProductLedger<L> {
    ghost name = { L.name };

    ghost parts = { L.parts };
}

impl<L: Ledger> Products for ProductLedger<L> {}

/// The ledger `L`, kept for looks into a register alone.
pub struct LookLedger<L: Ledger> {
    ledger: PhantomData<L>,
}

impl<L: Ledger> Ledger for LookLedger<L> {
    ghost name = { L.name };

    ghost parts = { L.parts };
}

impl<L: Ledger> Looks for LookLedger<L> {}
