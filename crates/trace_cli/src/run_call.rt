//! One call of the program, from words to a status.

ghost use Rattle.std.specs.Prelude.{◌≡◌, ◌≢◌, map, false, true, IfSome, None};
ghost use Rattle.std.specs.String.{string_bytes};
ghost use Rattle.shelf_terms.specs.Counts.{Rose};
ghost use Rattle.records.specs.Agreement.{Supposed};
ghost use Rattle.outcome_terms.specs.Commands.{deed, may_end, request_of};
ghost use Rattle.outcome_terms.specs.Outcome.{Performs, is_free_status, outcome, outcome_status, refused_by_words, written_name};
ghost use Rattle.outcome_terms.specs.Call.{DoneSo, Ends, GetsSoFar, HasEffect, IsRefused, KeepsOutput, SparesBlobs, StatusCauses, row};
ghost use Rattle.command_io.specs.Answers.{left_text};
ghost use Rattle.outcome_terms.specs.Spending.{SpendsAtMost, TakesAtMost, trace_made};
ghost use Rattle.trace_costs.specs.Costs.{IsBuilt, built_costs, curve_costs};
ghost use Rattle.trace_cli.specs.Headline.{Headline};

use crate::ending::put_out;
use check_commands::check;
use cli_words::{Command, Status, read_words};
use command_io::{Done, write_text};
use gs_params::Interpolate;
use outcome_terms::Refusal;
use register_commands::{enrolled_text, register_text, withdrawn_text};
use sample_commands::sample_text;
use shelf_io::{Shelf, Sink};
use std::alloc::Global;
use steps::{Looks, Products, Steps};
use title_commands::{playlist_text, title_text};
use trace_commands::{accuse, trace};

/// Does what the words say: it reads and writes blobs of the shelf, puts an answer or one error line to `out`, and says how it ended.
///
/// Traces find curves with `by`. `prods` counts products and inverses in the field, `looks` the looks into registers.
pub fn run<S: Shelf, O: Sink, I: Interpolate, P: Products, Q: Looks>(
    alloc: Global,
    words: &[String],
    shelf: &mut S,
    out: &mut O,
    by: &I,
    prods: &mut Steps<P>,
    looks: &mut Steps<Q>,
) -> Status
    // What the command promises: a done one has done what its name says.
    ensures headline { Headline (request_of (map string_bytes words.now)) result
        (S.store shelf.old) (S.store shelf.new)
        (O.output out.old) (O.output out.new) }

    // Over every store: what the words alone refuse has its status, but for want of memory, and nothing is read or written.
    ensures refused { IfSome (refused_by_words (deed (request_of (map string_bytes words.now))))
        (λ e.
        IsRefused e result (S.store shelf.old) (S.store shelf.new)) }

    // Over every store: a command ends only with the statuses of its row, and those that words decide only where they do.
    ensures row { may_end (row (request_of (map string_bytes words.now))) result ≡ true }

    // Words are refused as no command only where they are none.
    ensures bad_words { result ≡ Status.BadWords → request_of (map string_bytes words.now) ≡ None }

    // Whatever the counts did, a status that the words and the blobs decide is the outcome's.
    ensures decided { IfSome (S.store shelf.old).told (λ blobs. is_free_status result ≡ false
        → result ≡ outcome_status (outcome (map string_bytes words.now) blobs)) }

    // Where no count of faults rose, the status is the outcome's, but for want of memory.
    ensures complete { (Rose (S.store shelf.old).counts.faults (S.store shelf.new).counts.faults → ⊥)
        → (Rose (S.store shelf.old).counts.write_faults (S.store shelf.new).counts.write_faults → ⊥)
        → (Rose (O.output out.old).faults (O.output out.new).faults → ⊥)
        → IfSome (S.store shelf.old).told (λ blobs. result ≢ Status.Memory
        → result ≡ outcome_status (outcome (map string_bytes words.now) blobs)) }

    // What failed outside was counted in this call.
    ensures causes { StatusCauses (S.store shelf.old).counts (S.store shelf.new).counts
        (Rose (O.output out.old).faults (O.output out.new).faults) result }

    // A read fails only at a blob that the command gets to, a write only where all that it reads was as it should be.
    ensures so_far { GetsSoFar (deed (request_of (map string_bytes words.now)))
        (S.store shelf.old) (S.store shelf.new) result }

    // A done command leaves exactly its outcome: the blobs and the bytes put out.
    ensures effect { result ≡ Status.Ok
        → IfSome (S.store shelf.old).told
        (λ blobs. HasEffect (outcome (map string_bytes words.now) blobs) blobs
        (S.store shelf.new).told (O.output out.old)
        (O.output out.new)) }

    // No blob changes but the one to be written, and none at all where the outcome is a refusal.
    ensures blobs { SparesBlobs (deed (request_of (map string_bytes words.now))) result
        (S.store shelf.old).told (S.store shelf.new).told }

    // A command that writes a blob puts nothing out when it is done, and no output's fault is its status.
    ensures output { KeepsOutput
        (written_name (deed (request_of (map string_bytes words.now)))) result
        (O.output out.old) (O.output out.new) }

    // Whatever the status, a command that traces takes no more products and looks than one trace of the register and the word in
    // the two blobs may take, and none where it is refused before.
    ensures steps { IfSome (S.store shelf.old).told
        (λ blobs. TakesAtMost (curve_costs I.cost) (trace_made (request_of (map string_bytes words.now))) blobs
        (record { products = prods.old; looks = looks.old })
        (record { products = prods.new; looks = looks.new })) }

    // Where curves are built point by point, these products are at most `iterative_product_bound`.
    ensures products_built { IsBuilt I.cost → IfSome (S.store shelf.old).told (λ blobs.
        TakesAtMost built_costs (trace_made (request_of (map string_bytes words.now))) blobs
        (record { products = prods.old; looks = looks.old })
        (record { products = prods.new; looks = looks.new })) }

    // Over every store: it takes none, or what one trace of a register and a word that it read may take.
    ensures steps_untold { SpendsAtMost (curve_costs I.cost)
        (trace_made (request_of (map string_bytes words.now))) (S.store shelf.old) (S.store shelf.new)
        (record { products = prods.old; looks = looks.old })
        (record { products = prods.new; looks = looks.new }) }

    // Over every store, and all blobs that agree with what it was asked and answered in this call: each of these promises holds as
    // if the store had told them. `FolderShelf` tells none, and so these are what is promised over files.
    ensures headline_supposed { Supposed (S.store shelf.old) (S.store shelf.new) (λ blobs was is.
        Headline (request_of (map string_bytes words.now)) result was is (O.output out.old)
        (O.output out.new)) }
    ensures decided_supposed { Supposed (S.store shelf.old) (S.store shelf.new) (λ blobs was is.
        is_free_status result ≡ false
        → result ≡ outcome_status (outcome (map string_bytes words.now) blobs)) }
    ensures complete_supposed { (Rose (S.store shelf.old).counts.faults (S.store shelf.new).counts.faults → ⊥)
        → (Rose (S.store shelf.old).counts.write_faults (S.store shelf.new).counts.write_faults → ⊥)
        → (Rose (O.output out.old).faults (O.output out.new).faults → ⊥)
        → Supposed (S.store shelf.old) (S.store shelf.new) (λ blobs was is. result ≢ Status.Memory
        → result ≡ outcome_status (outcome (map string_bytes words.now) blobs)) }
    ensures so_far_supposed { Supposed (S.store shelf.old) (S.store shelf.new) (λ blobs was is.
        GetsSoFar (deed (request_of (map string_bytes words.now))) was is result) }
    ensures effect_supposed { result ≡ Status.Ok
        → Supposed (S.store shelf.old) (S.store shelf.new) (λ blobs was is.
        HasEffect (outcome (map string_bytes words.now) blobs) blobs is.told (O.output out.old)
        (O.output out.new)) }
    ensures blobs_supposed { Supposed (S.store shelf.old) (S.store shelf.new) (λ blobs was is.
        SparesBlobs (deed (request_of (map string_bytes words.now))) result was.told is.told) }
    ensures steps_supposed { Supposed (S.store shelf.old) (S.store shelf.new) (λ blobs was is.
        TakesAtMost (curve_costs I.cost) (trace_made (request_of (map string_bytes words.now))) blobs
        (record { products = prods.old; looks = looks.old })
        (record { products = prods.new; looks = looks.new })) }
    ensures products_built_supposed { IsBuilt I.cost
        → Supposed (S.store shelf.old) (S.store shelf.new) (λ blobs was is.
        TakesAtMost built_costs (trace_made (request_of (map string_bytes words.now))) blobs
        (record { products = prods.old; looks = looks.old })
        (record { products = prods.new; looks = looks.new })) }

    // Over every store: a done command read whole blobs and nothing else, and made of just their bytes the text that was put out or
    // written.
    ensures exact { result ≡ Status.Ok → DoneSo (deed (request_of (map string_bytes words.now)))
        (S.store shelf.old) (S.store shelf.new) (O.output out.old) (O.output out.new) }

    // The whole: how the command was performed read by read, and how its answer was delivered.
    ensures ends { Ends (map string_bytes words.now) (S.store shelf.old)
        (S.store shelf.new)
        result (O.output out.old) (O.output out.new) }
{
    let answer = perform(alloc, words, shelf, by, prods, looks);
    put_out(alloc, answer, out)
}

/// Does what the words say, up to what is to be put out.
#[tactic(auto, using(outcome_terms::proofs::Readings::reading_rules, outcome_terms::proofs::Readings::performs_rules, outcome_terms::proofs::Spending::spending_rules))]
fn perform<S: Shelf, I: Interpolate, P: Products, Q: Looks>(
    alloc: Global,
    words: &[String],
    shelf: &mut S,
    by: &I,
    prods: &mut Steps<P>,
    looks: &mut Steps<Q>,
) -> Result<Done, Refusal>
    ensures performs { Performs (deed (request_of (map string_bytes words.now)))
        (S.store shelf.old) (S.store shelf.new) (left_text result) }
    ensures steps { SpendsAtMost (curve_costs I.cost)
        (trace_made (request_of (map string_bytes words.now))) (S.store shelf.old) (S.store shelf.new)
        (record { products = prods.old; looks = looks.old })
        (record { products = prods.new; looks = looks.new }) }
{
    let Some(command) = read_words(words) else {
        return Err(Refusal::BadWords);
    };
    match command {
        Command::Register { m, k, a, b, out } => {
            let text = register_text(alloc, m, k, a, b, looks)?;
            write_text(alloc, shelf, out, text)
        }
        Command::Enrol { reg, name, out } => {
            let text = enrolled_text(alloc, shelf, reg, name, out, looks)?;
            write_text(alloc, shelf, out, text)
        }
        Command::Withdraw { reg, name, out } => {
            let text = withdrawn_text(alloc, shelf, reg, name, out, looks)?;
            write_text(alloc, shelf, out, text)
        }
        Command::Title {
            design,
            source,
            out,
        } => {
            let text = title_text(alloc, shelf, design, source, out)?;
            write_text(alloc, shelf, out, text)
        }
        Command::Package {
            title,
            reg,
            name,
            out,
        } => {
            let text = playlist_text(alloc, shelf, title, reg, name, out, prods, looks)?;
            write_text(alloc, shelf, out, text)
        }
        Command::Trace {
            title,
            reg,
            copy,
            c,
        } => {
            let text = trace(alloc, shelf, title, reg, copy, c, by, prods, looks)?;
            Ok(Done::Text(text))
        }
        Command::Check {
            title,
            reg,
            copy,
            report,
        } => {
            let text = check(alloc, shelf, title, reg, copy, report, prods, looks)?;
            Ok(Done::Text(text))
        }
        Command::Accuse { reg, word, c } => {
            let text = accuse(alloc, shelf, reg, word, c, by, prods, looks)?;
            Ok(Done::Text(text))
        }
        Command::Sample { number } => {
            let text = sample_text(alloc, number, by, prods, looks)?;
            Ok(Done::Text(text))
        }
    }
}
