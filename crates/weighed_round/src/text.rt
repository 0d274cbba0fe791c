//! The text of a weighted set-off.
ghost use Rattle.std.specs.Prelude.{◌≡◌, ◌<◌, ◌≤◌, ◌^◌, ◌++◌, All, OnOk, IfOk, length, unsigned_abs};
ghost use Rattle.setoff_model.specs.declared.limits.TheConstants.{SUM_LIMIT, MOST_WINDOW};
ghost use Rattle.setoff_model.specs.CutView.{WellFormed, obligations};
ghost use Rattle.setoff_model.specs.Weighted.{AreWeights, ProvesWeighted};
ghost use Rattle.printed_text.specs.statement_text.specs.Statements.{party_lines};
ghost use Rattle.printed_text.specs.Printing.{lines_bytes};
ghost use Rattle.weighed_round.specs.Weighed.{weighed_lines, weighed_text};

use printed_text::{write_end, write_party, write_total, write_weighed_claim, write_weighed_head};
use setoff_model::limits::LINE_BYTES;
use setoff_model::{Cut, Outcome, Party};
use std::alloc::{AllocError, Global};
use weighted_setoff::weighted_total;

// Writes the lines of the parties, each with its price.
fn put_parties(text: &mut Vec<u8>, parties: &[Party], prices: &[i64]) -> Result<(), AllocError>
    requires spends { All (λ f. f.spend ≤ MOST_WINDOW) parties.now }
    requires rooms { All (λ f. f.room ≤ MOST_WINDOW) parties.now }
    requires prices { All (λ p. unsigned_abs p < 10 ^ 9) prices.now }
    requires price_each { length prices.now ≡ length parties.now }

    // Their lines.
    ensures { OnOk result (text.new.items ≡ text.old.items ++ lines_bytes (party_lines parties.now prices.now)) }
{
    for i in 0..parties.len() {
        text.reserve(LINE_BYTES)?;
        write_party(text, &parties[i], prices[i]);
    }
    Ok(())
}

// Writes the lines of the claims, each with its discharge and its weight.
fn put_claims(
    text: &mut Vec<u8>,
    cut: &Cut,
    discharges: &[u64],
    weights: &[u32],
) -> Result<(), AllocError>
    requires cut { WellFormed cut.now }
    requires discharges { All (λ d. d < SUM_LIMIT) discharges.now }
    requires discharge_each { length discharges.now ≡ length cut.now.claims }
    requires weight_each { length weights.now ≡ length cut.now.claims }

    // Their lines.
    ensures { OnOk result (text.new.items ≡ text.old.items ++ weighed_lines cut.now.parties cut.now.claims discharges.now weights.now) }
{
    for i in 0..discharges.len() {
        text.reserve(LINE_BYTES)?;
        write_weighed_claim(text, cut, i as u32, discharges[i], weights[i]);
    }
    Ok(())
}

/// The text of a weighted set-off of a cut. The only error is running out of memory.
pub(crate) fn text_of(
    alloc: Global,
    cut: &Cut,
    weights: &[u32],
    outcome: &Outcome,
) -> Result<Vec<u8>, AllocError>
    requires cut { WellFormed cut.now }
    requires weights { AreWeights (obligations cut.now) weights.now }
    requires proves { ProvesWeighted (obligations cut.now) weights.now outcome.now.discharges outcome.now.prices }
    ensures { IfOk result (λ text. text.items ≡ weighed_text cut.now weights.now outcome.now) }
{
    let mut text = Vec::with_capacity(alloc, LINE_BYTES)?;
    write_weighed_head(&mut text, cut.kind());
    put_parties(&mut text, cut.parties(), outcome.prices())?;
    put_claims(&mut text, cut, outcome.discharges(), weights)?;
    text.reserve(LINE_BYTES)?;
    write_total(&mut text, weighted_total(weights, outcome.discharges()));
    text.reserve(LINE_BYTES)?;
    write_end(&mut text);
    Ok(text)
}
