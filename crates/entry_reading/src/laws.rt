//! What printed text fixes. Each of these calls does nothing.
ghost use Rattle.entry_reading.specs.Shown.{LineLaw};
ghost use Rattle.entry_reading.specs.Texts.{AddedLaw, TextLaw};

/// Two texts that begin with the line of an entry and are one are of entries with one caller, one pool, one reply and one act, of
/// publications with one round; and what stands behind their lines is one, too.
pub fn each_entry_line_has_one_reading()
    ensures { LineLaw }
{}

/// Where the entries before a list of batches are known, the text that was printed of the batches fixes their entries, but for the
/// outcome of a publication that was refused. The numbers of these entries have 8 bytes, as they have where a run added them.
pub fn printed_batches_have_one_reading()
    ensures texts { TextLaw }
    ensures added { AddedLaw }
{}
