//! The lines of the chains of an explainer.
ghost use Rattle.std.specs.Prelude.{◌≡◌, ◌≤◌, [], vec_capacity};
ghost use Rattle.setoff_model.specs.declared.limits.TheConstants.{OUTPUT_BYTES};
ghost use Rattle.bureau_edge.specs.Streams.{CountsFaults};
ghost use Rattle.chain_text.specs.Given.{HasGivenAll, HasPassed, HasPrinted};

use crate::line::print_chain;
use bureau_edge::{Failed, Sink};
use chain_explain::Explainer;
use printed_text::flush;

// Takes the chains that are left, and prints none of them.
fn take_rest(explainer: &mut Explainer)
    ensures { HasGivenAll explainer.old explainer.new }
{
    while let Some(chain) = explainer.next() {
        let _ = chain;
    }
}

// Prints a line for each chain that is left, through the buffer. Where the sink fails no more is printed.
fn pass_chains<K: Sink>(
    sink: &mut K,
    buffer: &mut Vec<u8>,
    explainer: &mut Explainer,
) -> Result<(), Failed>
    requires spare { OUTPUT_BYTES ≤ vec_capacity buffer.old }
    ensures passed { HasPassed (K.held sink.old) (K.held sink.new) buffer.old.items buffer.new.items explainer.old explainer.new result }
    ensures cause { CountsFaults (K.faults sink.old) (K.faults sink.new) result }
    ensures room { OUTPUT_BYTES ≤ vec_capacity buffer.new }
{
    while let Some(chain) = explainer.next() {
        match print_chain(sink, buffer, explainer.cut(), chain, explainer.claims()) {
            Ok(()) => {}
            Err(failed) => {
                take_rest(explainer);
                return Err(failed);
            }
        }
    }
    Ok(())
}

/// Prints a line for each chain that is left to an explainer, through an empty buffer that has room for `OUTPUT_BYTES`.
///
/// Where the sink fails no more is printed, and the chains are taken to the end all the same. So all is explained afterwards, and the
/// sink took the lines of the chains, or some first bytes of them where it failed, and then it counted a fault.
pub fn print_chains<K: Sink>(
    sink: &mut K,
    buffer: &mut Vec<u8>,
    explainer: &mut Explainer,
) -> Result<(), Failed>
    requires empty { buffer.old.items ≡ [] }
    requires spare { OUTPUT_BYTES ≤ vec_capacity buffer.old }
    ensures printed { HasPrinted (K.held sink.old) (K.held sink.new) explainer.old explainer.new result }
    ensures cause { CountsFaults (K.faults sink.old) (K.faults sink.new) result }
{
    pass_chains(sink, buffer, explainer)?;
    flush(sink, buffer)
}
