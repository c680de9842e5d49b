//! The tracing desk: who in a book of licensees agrees with a word, or fits pairs of a place and a symbol. It finds the few
//! messages that do by list decoding, and looks each of them up.
#![tactic(auto)]

mod book;
mod costs;
mod desk;
mod desk_error;

pub use book::Book;
pub use costs::{iterative_curves_cost, iterative_curves_cost_less, linear_curves_cost};
pub use desk::{accuse, accused_by};
pub use desk_error::DeskError;
pub use desk_terms::{Accused, AccusedList, Findings};
