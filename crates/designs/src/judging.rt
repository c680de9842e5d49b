//! Values that are judged by the rules of designs.

ghost use Rattle.std.specs.Prelude.{◌≡◌, [], map, Some, IfOk};
ghost use Rattle.title_terms.specs.DesignRules.{design_from, marks_behind};
ghost use Rattle.designs.specs.Answers.{Gives, GivesMarks, proposal_of, next_mark, AreMarks};

use crate::design::Design;
use crate::errors::DesignError;
use crate::rules::{
    allowed_bits, allowed_bound, allowed_dimension, are_enough, have_room, is_above, is_affix,
    is_light,
};
use lists::Text;
use std::alloc::{AllocError, Global};
use texts::is_plain;
use title_terms::DesignFault;

/// The values that somebody wants for a design: `None` stands for a number below 0, and in the list for what is no number.
#[derive(Clone, Copy)]
pub(crate) struct Wanted<'a> {
    pub(crate) name: &'a str,
    pub(crate) bits: Option<u64>,
    pub(crate) dimension: Option<u64>,
    pub(crate) bound: Option<u64>,
    pub(crate) prefix: &'a str,
    pub(crate) suffix: &'a str,
    pub(crate) marked: &'a [Option<u64>],
}

/// The design of these values, or the first rule that they break.
#[tactic(auto, unfolding(title_terms::specs::DesignRules::design_from))]
pub(crate) fn judge(alloc: Global, wanted: &Wanted) -> Result<Design, DesignError>
    ensures { Gives result (design_from (proposal_of wanted.now)) }
{
    if !is_plain(wanted.name) {
        return Err(DesignError::NotDesign(DesignFault::BadName));
    }
    let bits = allowed_bits(wanted.bits)?;
    let dimension = allowed_dimension(wanted.dimension)?;
    let bound = allowed_bound(wanted.bound)?;
    if !is_light(dimension, bound) {
        return Err(DesignError::NotDesign(DesignFault::TooMuchWork));
    }
    if !is_affix(wanted.prefix) {
        return Err(DesignError::NotDesign(DesignFault::BadPrefix));
    }
    if !is_affix(wanted.suffix) {
        return Err(DesignError::NotDesign(DesignFault::BadSuffix));
    }
    let marked = judge_marks(alloc, wanted.marked)?;
    if !have_room(bits, marked.len()) {
        return Err(DesignError::NotDesign(DesignFault::TooManyPlaces));
    }
    if !are_enough(dimension, bound, marked.len()) {
        return Err(DesignError::NotDesign(DesignFault::TooWeak));
    }
    Ok(Design {
        name: Text::of(alloc, wanted.name)?,
        bits,
        dimension,
        bound,
        prefix: Text::of(alloc, wanted.prefix)?,
        suffix: Text::of(alloc, wanted.suffix)?,
        marked,
    })
}

/// The numbers of the marked segments, or the first position that is no such number or not above the one in front of it.
fn judge_marks(alloc: Global, wanted: &[Option<u64>]) -> Result<Vec<u32>, DesignError>
    ensures found { GivesMarks (λ marks. marks.items) result (marks_behind [] wanted.now) }
    ensures are { IfOk result (λ marks. AreMarks marks.items) }
{
    let mut marks: Vec<u32> = Vec::new(alloc);
    'marks: for item in wanted {
        let Some(segment) = next_mark(marks.as_slice(), *item) else {
            let few = marks.len() <= 100_000;
            prove!(few);
            let position = marks.len() as u32;
            return Err(DesignError::NotDesign(DesignFault::BadMarked(position)));
        };
        match marks.push(segment) {
            Ok(()) => {}
            Err(error) => return Err(error.into()),
        }
    }
    Ok(marks)
}

/// The number, where it is there, below 100,000 and above the last of those in front.
fn next_mark(past: &[u32], item: Option<u64>) -> Option<u32>
    ensures { result ≡ next_mark past.now item }
{
    match item {
        Some(segment) if is_above(past, segment) && segment < 100_000 => Some(segment as u32),
        _ => None,
    }
}

/// The numbers, each as one that is there.
pub(crate) fn numbers(alloc: Global, marked: &[u32]) -> Result<Vec<Option<u64>>, AllocError>
    ensures { IfOk result (λ all. all.items ≡ map Some marked.now) }
{
    let mut all = Vec::new(alloc);
    'numbers: for segment in marked {
        match all.push(Some(u64::from(*segment))) {
            Ok(()) => {}
            Err(error) => return Err(error.into()),
        }
    }
    Ok(all)
}
