//! What the promise of a run comes to. Each of these calls does nothing.
ghost use Rattle.bureau_commands.specs.Laws.{CrashLaw, HistoryLaw, ImageLaw, NextLaw};

use disk_model::Disk;

/// The clause on crashes is tied to the disk that comes back. Of its images those of the start are as they were, and none between
/// the start and the opening's first sync is new; from that sync up to the end of the opening each holds the records of the start,
/// with the first of the abandonments, any number of them.
pub fn crashes_are_told_of_the_disk<D: Disk>()
    ensures { CrashLaw D.seen }
{}

/// Each image of the disk that comes back, of any moment from the start of the call to its end, is one that a crash could leave at the
/// start; or it holds the first accepted acts, alone or with one more: no fewer than were opened, and at most all.
pub fn each_image_holds_a_beginning<D: Disk>()
    ensures { ImageLaw D.seen }
{}

/// Of a disk that holds sound records, as a run that opened it leaves it, an audit says yes, and no later call ends with status 8.
pub fn sound_journals_have_no_fault<D: Disk>()
    ensures { NextLaw D.seen }
{}

/// The disk that comes back from a run holds its accepted entries, after those of the start, with the very replies that it printed, and
/// perhaps one more behind them, for which the disk failed last. What `history` prints afterwards is what it printed before, and then the
/// run's lines of accepted entries, each publication followed by its statement: all that the run printed, where nothing was refused and
/// each line was replied to. What `statement` prints of a round that was published is what stood behind the line of its publication.
pub fn runs_print_their_history<D: Disk>()
    ensures { HistoryLaw D.seen }
{}
