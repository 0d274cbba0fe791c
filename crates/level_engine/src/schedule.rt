//! The schedule of the solver: what is tried on which nets, in which order and for how long.
//!
//! No number here changes what is found, since each answer is tested. It changes only how soon it is found. Halves are those of arcs, two
//! for each. Work is a count of looks and moves, so that the answer is the same on each machine; it is meant for each half of the net where
//! nothing else is said.

/// A net has few arcs where it has at most so many halves for each node.
pub const FEW_HALVES: usize = 3;

/// With at most so many halves for each node it is asked sooner whether levels get on.
pub const SOME_HALVES: usize = 5;

/// With at most so many halves for each node the whole is sought from where nothing is set off before there are levels.
pub const SPARSE_HALVES: usize = 6;

/// With more halves than so many for each node the net is hardly in parts, and none are looked for.
pub const DENSE_HALVES: usize = 128;

/// The parts of a net are solved apart where more than one claim in so many is between two of them.
pub const CLAIMS_APART: usize = 10;

/// Series may be where there are at most so many claims for each party.
pub const CLAIMS_IN_SERIES: usize = 2;

/// Series are taken as one arc each where more than one party in so many is inside one.
pub const PARTIES_IN_SERIES: usize = 4;

/// A simplex starts at risen prices where less than one cent in so many is of claims that lead back.
pub const CENTS_BACK: u64 = 20;

/// Without windows prices rise to at most one for so many nodes.
pub const NODES_FOR_PRICE: usize = 64;

/// So many levels are tried at first.
pub const LEVELS: usize = 32;

/// So many where some units count more than one.
pub const LEVELS_WEIGHTED: usize = 128;

/// So many where there are few arcs.
pub const LEVELS_FEW: usize = 4;

/// From so many levels on it is asked whether they get on.
pub const LEVELS_ASKED: usize = 16;

/// From so many on where there are at most `SOME_HALVES`.
pub const LEVELS_ASKED_SOON: usize = 4;

/// Levels get on no longer where less than one cent in so many of the excess has gone since half the level.
pub const LEVELS_GAIN: u128 = 4;

/// The next level goes from the other side where less than one cent in so many of the excess went in the last.
pub const LEVEL_GAIN: i64 = 4;

/// The part of the halves with gain 0, one in so many, that pushes at a level may look at after each search for layers.
pub const LEVEL_FUEL: usize = 4;

/// In other nets it is sought so where more than `FAR_PARTS` of `FAR_OF` parts of what is set off are in excess, and so have to go back.
pub const FAR_PARTS: u128 = 3;

/// See `FAR_PARTS`.
pub const FAR_OF: u128 = 5;

/// With few halves a simplex is first tried from where claims are set off in pairs between two firms, if there is more than one pair for so
/// many claims, and at most one for each party.
pub const CLAIMS_IN_PAIRS: usize = 3;

/// Its work.
pub const PAIRED: u64 = 48;

/// How a simplex is tried from where nothing is set off.
#[derive(Clone, Copy)]
pub struct Trial {
    /// Its work at first.
    pub first: u64,
    /// It goes on where that was at most so much for each arc that entered.
    pub light: u64,
    /// Its work in all then.
    pub all: u64,
}

/// The trial in a net with at most `SPARSE_HALVES`.
pub const SPARSE_TRIAL: Trial = Trial {
    first: 4,
    light: 48,
    all: 128,
};

/// The trial in other nets.
pub const FULL_TRIAL: Trial = Trial {
    first: 16,
    light: 200,
    all: 128,
};

/// In so many slices a simplex is tried that starts at risen prices, each of half as much work more than the one before.
pub const SLICES: usize = 17;

/// A slice may have so much work for each arc that enters, where there are as many halves as nodes.
pub const SLICE: u64 = 200;

/// So much more for each time that the slice could look at all halves.
pub const SLICE_MORE: u64 = 36;

/// And so much at most.
pub const SLICE_MOST: u64 = 2_000;

/// The work of a simplex that alone is asked, as over series, besides the square of the nodes.
pub const ALONE: u64 = 500;

/// The work of the simplex that starts where the levels stand, before the rest is drained, where there are few arcs.
pub const WARM: u64 = 700;

/// The work of a drain at first.
pub const DRAIN_BRIEF: u64 = 32;

/// A drain ends early where more than `DRAIN_LEFT` of a hundred cents are left behind one part in so many of its work.
pub const DRAIN_PART: u64 = 4;

/// See `DRAIN_PART`.
pub const DRAIN_LEFT: u128 = 67;

/// The work of a drain where that was too little, and the whole was sought in vain from where nothing is set off.
pub const DRAIN: u64 = 400;

/// The work of the search for the whole between those drains, besides one for each `WHOLE_SQUARES` of the square of the nodes.
pub const WHOLE: u64 = 400;

/// See `WHOLE`.
pub const WHOLE_SQUARES: u64 = 4;

/// Claims are large that hold at least one cent in so many of what the largest holds.
pub const LARGE: u64 = 256;

/// Claims are of many sizes where one in so many is not large.
pub const CLAIMS_BY_SIZE: usize = 32;

/// Claims are mostly small where at most one in so many is large.
pub const CLAIMS_BY_SHARES: usize = 3;

/// Such claims come by shares from where nothing is set off before the levels, too, with at most so many halves for each node, and more
/// than `FEW_HALVES`.
pub const SHARES_HALVES: usize = 12;

/// Where claims are not mostly alike, the work of the simplex that starts where a brief drain ended, besides one for each `WHOLE_SQUARES`
/// of the square of the nodes.
pub const DRAINED: u64 = 448;

/// And that of one from risen prices.
pub const RISEN: u64 = 900;

/// The work at first of a simplex to which all arcs come by shares from where nothing is set off, for each arc, and for each
/// `SHARED_SQUARES` of the square of the nodes. It is far on where `SHARES_FAR` shares are open then.
pub const SHARED_EARLY: u64 = 100;

/// See `SHARED_EARLY`.
pub const SHARED_SQUARES: u64 = 400;

/// Its work in all, counted in the same way, before the one from where the levels stand is tried, or goes on where it was slow.
pub const SHARED_FAR: u64 = 800;

/// The work at first of the simplex to which they come from where the levels stand.
pub const WARM_SOON: u64 = 350;

/// If the other one was far on early, this one goes on to the end where at most so many of a hundred cents that were outside are so still.
pub const WARM_HALF: u64 = 50;

/// Or so many, where the other one has `SHARES_ON` shares open behind `SHARED_FAR`.
pub const WARM_NEAR: u64 = 20;

/// Elsewhere this one goes on to the end where at most so many are.
pub const WARM_LEFT: u64 = 60;

/// If more are, the other one goes on to `SHARED_FAR`. It goes on to the end if it has `SHARES_ON` shares open then, or `SHARES_FAR` and
/// more than so many of a hundred cents are outside.
pub const WARM_MOST: u64 = 90;

/// If not, this one goes on for so much work, and then to the end where at most `WARM_LEFT` are outside.
pub const WARM_FAR: u64 = 2_800;

/// How far each of the two goes in the end: first the one that is chosen, and then the other.
pub const SHARED: u64 = 20_000;

/// How far the one from where nothing is set off goes before there are levels.
pub const SHARED_COLD: u64 = 400;

/// Arcs come in so many shares.
pub const SHARES: usize = 8;

/// The simplex from where nothing is set off has begun where so many are open.
pub const SHARES_BEGUN: usize = 2;

/// It is far on where so many are.
pub const SHARES_FAR: usize = 3;

/// So many are more than most nets have behind `SHARED_FAR`.
pub const SHARES_ON: usize = 4;

/// Each time that all shares are at rest, a cent that is outside is charged so many times more what one on an arc counts at most.
pub const CHARGE: i32 = 128;

/// Of each share, arcs are filled together as far as the tree lets them through: if not all of those that are left, one in so many.
pub const FILLED_PART: usize = 4;

/// But no fewer than so many.
pub const FILLED_LEAST: usize = 16;

/// Not after so few did not pass so many times in turn.
pub const FILLED_IN_VAIN: usize = 8;

/// After so many turns, each of twice as much work as the one before, the levels go on alone.
pub const TURNS: u32 = 10;

/// The work of the first turn, besides `TURN_SQUARES` times the square of the nodes.
pub const TURN: u64 = 500;

/// See `TURN`.
pub const TURN_SQUARES: u64 = 2;

/// Arcs are priced in runs that stand together in the list of arcs, at first of so many.
pub const RUN: usize = 16;

/// A block of runs, of which the worst arc enters, has the root of the number of arcs, divided by this.
pub const BLOCK: usize = 8;

/// Where arcs come by shares, a block is as long as so many.
pub const SHARED_BLOCKS: usize = 4;

/// So many of the worst arcs of a block are kept then for the pivots to come, and the one that is worst at each of these enters.
pub const KEPT: usize = 16;

/// The nodes of the tree are numbered anew after so much work in the tree for each arc.
pub const NUMBERED: u64 = 128;

/// Paths of the tree are kept in stretches where so many arcs of a circle are not turned.
pub const LONG: u64 = 400;

/// A stretch has so many nodes.
pub const STRETCH: usize = 16;

/// The tree falls into at most so many fragments, whose potentials change together, before its nodes are laid out anew.
pub const FRAGMENTS: usize = 2_048;

/// A change of potentials is followed by a look at the arcs around it where they have at most so many halves.
pub const AROUND: u64 = 1_024;

/// And where no more than so many halves were looked at so for each arc that was priced.
pub const LOOKS: u64 = 2;
