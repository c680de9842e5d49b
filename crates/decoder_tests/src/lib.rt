//! The tests of the field, the polynomials, the curves with their roots, and the codewords. They call only what those crates make
//! public, and stand here together, so that no proof of those crates is made once more for their tests.
#![tactic(auto)]

#[cfg(test)]
mod bivariate;
#[cfg(test)]
mod both_interpolators;
#[cfg(test)]
mod codewords;
#[cfg(test)]
mod curves;
#[cfg(test)]
mod field;
#[cfg(test)]
mod pairs;
#[cfg(test)]
mod parameters;
#[cfg(test)]
mod polynomials;
#[cfg(test)]
mod roots;
#[cfg(test)]
mod systems;
