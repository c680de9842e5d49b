//! The tests of the stores and of every text that is read or written: names, registers, designs, titles, playlists, reports and
//! samples. They call only what those crates make public, and stand here together, so that no proof of those crates is made once
//! more for their tests.
#![tactic(auto)]

#[cfg(test)]
mod design_files;
#[cfg(test)]
mod digests;
#[cfg(test)]
mod finding;
#[cfg(test)]
mod names_and_numbers;
#[cfg(test)]
mod playlists;
#[cfg(test)]
mod registers;
#[cfg(test)]
mod reports;
#[cfg(test)]
mod samples;
#[cfg(test)]
mod stores;
#[cfg(test)]
mod titles;
#[cfg(test)]
mod verdicts;
