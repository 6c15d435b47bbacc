//! The laws: an image of bodies that meet the open law does what its source allows, and handlers survive.

ghost use Rattle.preempt_bodies.specs.Example.{IdleRuns};
ghost use Rattle.preempt_bodies.specs.Laid.{LaidImagesAreBuilt};
ghost use Rattle.preempt_bodies.specs.Runs.{EntriesFallOutside, RunsAsSource, Survives};
ghost use Rattle.preempt_bodies.specs.WordBoards.{WordBoardsAnswerWords};

/// A mote with an image of such bodies does what the source allows, on every board, with every schedule, after every number of
/// slots, and its stack stays within the sum of the depths. Registers of devices and values that come are words.
pub fn runs_as_source()
    ensures { RunsAsSource }
{}

/// Between entry and exit, a body that meets the law with interrupts closed leaves what it interrupts as it was.
pub fn survives()
    ensures { Survives }
{}

/// Boards whose registers hold words answer words, and stay such boards.
pub fn answers_words()
    ensures { WordBoardsAnswerWords }
{}

/// The law's premises can be met: the image whose bodies do nothing does what its source allows.
pub fn idle_runs()
    ensures { IdleRuns }
{}

/// Where the code of reset and of the lines is laid out with the items of the pieces, the image is one of bodies.
pub fn laid_images_are_built()
    ensures { LaidImagesAreBuilt }
{}

/// In a run, which such a mote follows, a handler is entered where no atomic statement of the base is open and no handler runs.
pub fn entries_fall_outside()
    ensures { EntriesFallOutside }
{}
