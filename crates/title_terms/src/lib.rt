//! What a design and a title are, the text that a title is kept as, and the laws of both.
//!
//! A title is a film that is marked: which segments are, how their variants are named, and the digest of every variant.
//! `specs/Designs` and `specs/Titles` say which are valid, `specs/DesignRules` and `specs/DesignText` how a design is read
//! and which fault comes first, `specs/TitleText` what the text of a title is and which fault any other text has.
#![tactic(auto)]

mod fault;
mod laws;

pub use fault::{DesignFault, Key, TitleFault, TitleKind};
pub use laws::{
    cut_texts, designs_keep_the_rules, faults_of_digests, faults_of_documents, faults_of_each_line,
    faults_of_values, first_faults, texts_are_titles, worked_designs, worked_examples,
    worked_faults, worked_title,
};
