//! `add` of a title that is being built.

ghost use Rattle.std.specs.Prelude.{◌<◌, ◌≤◌};
ghost use Rattle.title_terms.specs.Designs.{places, symbols};

use crate::trial::Trial;
use blob_digests::Digest;
use designs::Design;
use m3u8_text::{MediaList, Segment};
use std::alloc::Global;
use title_store::{AddError, TitleBuilder};

/// Adds the digest of the first variant, and then asks whether it is there.
pub(crate) fn add_tried(alloc: Global) -> Trial {
    let Some(design) = design(alloc) else {
        return Trial::Unprepared;
    };
    let Some(list) = list_of_two(alloc) else {
        return Trial::Unprepared;
    };
    if design.places() == 0 || design.symbols() < 2 {
        return Trial::Changed;
    }
    match TitleBuilder::new(alloc, design, list) {
        Ok(mut builder) => first_added(&mut builder),
        Err(_) => Trial::Unprepared,
    }
}

/// A design of two places over GF(16).
fn design(alloc: Global) -> Option<Design> {
    Design::of(alloc, "film", 4, 2, 1, "v/", ".ts", &[0, 1]).ok()
}

/// A list of two segments.
fn list_of_two(alloc: Global) -> Option<MediaList> {
    let mut list = MediaList::new(alloc, 3, 6, 0).ok()?;
    list.push(Segment::new(alloc, 6_000_000, "s0.ts", false).ok()?)
        .ok()?;
    list.push(Segment::new(alloc, 6_000_000, "s1.ts", false).ok()?)
        .ok()?;
    Some(list)
}

/// Adds the digest, after a refusal once more. It stands there once and at one place: the variant is not free then, and another is
/// refused the same digest.
fn first_added(builder: &mut TitleBuilder) -> Trial
    requires place { 0 < places builder.old.design }
    requires symbols { 2 ≤ symbols builder.old.design }
{
    let digest = Digest { bytes: [7; 32] };
    let trial = match builder.add(0, 0, &digest) {
        Ok(()) => Trial::Done,
        Err(_) => Trial::kept(builder.add(0, 0, &digest).is_ok()),
    };
    let is_there = is_there(builder, &digest);
    if is_there { trial } else { Trial::Changed }
}

/// Whether the digest stands at the first variant alone.
fn is_there(builder: &mut TitleBuilder, digest: &Digest) -> bool
    requires place { 0 < places builder.old.design }
    requires symbols { 2 ≤ symbols builder.old.design }
{
    let other = Digest { bytes: [8; 32] };
    let is_held = matches!(builder.add(0, 0, &other), Err(AddError::Twice));
    let is_known = matches!(
        builder.add(0, 1, digest),
        Err(AddError::Duplicate {
            place: 0,
            symbol: 0
        })
    );
    is_held && is_known
}
