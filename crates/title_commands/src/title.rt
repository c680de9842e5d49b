//! `title`: a title of the variants that are held.

ghost use Rattle.std.specs.Prelude.{IsTrue};
ghost use Rattle.text_terms.specs.Names.{is_name};
ghost use Rattle.outcome_terms.specs.Stores.{Exactly, Follows, seen};
ghost use Rattle.outcome_terms.specs.TitleCommand.{title};

use lists::Text;
use outcome_terms::{Fault, Refusal};
use packager::make_title;
use shelf_io::Shelf;
use std::alloc::Global;
use title_io::{design_under, playlist_under};

/// The text of the title of the variants that are held, with the design and the media list under these names.
#[tactic(auto, using(outcome_terms::proofs::Readings::reading_rules), unfolding(outcome_terms::specs::TitleCommand::title))]
pub fn title_text<S: Shelf>(
    alloc: Global,
    shelf: &mut S,
    design: &str,
    source: &str,
    out: &str,
) -> Result<Vec<u8>, Refusal>
    requires design { IsTrue (is_name design.now) }
    requires source { IsTrue (is_name source.now) }
    ensures { Follows (title design.now source.now out.now) (S.store shelf.old)
        (S.store shelf.new)
        (seen (λ text. Exactly text.items) result) }
{
    if out == design || out == source {
        return Err(Refusal::Content(Fault::SameName(Text::of(alloc, out)?)));
    }
    let design = design_under(alloc, shelf, design)?;
    let source = playlist_under(alloc, shelf, source)?;
    let title = match make_title(alloc, shelf, design, source) {
        Ok(title) => title,
        Err(error) => return Err(Refusal::from(error)),
    };
    Ok(title.write(alloc)?)
}
