//! Laws of what a call sees.

ghost use Rattle.mvmap.specs.Laws.{BlocksOnLowerWriters, ChangesNoStandingRead, DependsOnLowerWriters, NamesWhatStands, SumsAddUp};

/// What a call sees of a key depends only on the entries of lower writers at that key.
pub fn depends_on_lower_writers()
    ensures { DependsOnLowerWriters }
{}

/// If an estimate is changed, to any other entry or to none, each read that stands still stands, with the same answer.
pub fn changes_no_standing_read()
    ensures { ChangesNoStandingRead }
{}

/// If a read stands, what is seen has that very origin. Each version that the origin names is in the map at its incarnation, and
/// its writer is below the reader.
pub fn names_what_stands()
    ensures { NamesWhatStands }
{}

/// A call is blocked only on a lower call whose entry is an estimate.
pub fn blocks_on_lower_writers()
    ensures { BlocksOnLowerWriters }
{}

/// One addition of the sum of the passed amounts gives what adding them in turn gives.
pub fn sums_add_up()
    ensures { SumsAddUp }
{}
