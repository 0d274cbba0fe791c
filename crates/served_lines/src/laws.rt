//! What holds of every batch that is served. Each of these calls does nothing.
ghost use Rattle.served_lines.specs.Bound.{BoundLaw};

/// No line of a batch is full where the history before it, with what its open rounds reserve, leaves room for all requests that are
/// still to come, those of the batch and of later ones: for an entry and 91 bytes of each, and for both endings of a round for each
/// Close, in bytes as if each round had all claims and firms that were ever asked for. After the batch there is this room for the
/// later ones. So the numbers at the opening bound every batch of a run.
pub fn no_line_is_full_within_the_bound()
    ensures { BoundLaw }
{}
