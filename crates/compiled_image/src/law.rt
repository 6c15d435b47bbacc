//! From middle code to runs of the mote.

ghost use Rattle.compiled_image.specs.AtomicImage.{AtomicRuns};
ghost use Rattle.compiled_image.specs.Compiled.{CompiledImagesRun};
ghost use Rattle.compiled_image.specs.Laid.{LaidProgramsRun};
ghost use Rattle.compiled_image.specs.Statements.{StatementsArePieces};
ghost use Rattle.compiled_image.specs.Table.{TablesAreMarked};

/// An image of reset, sleep, entries and exits, whose boot body and handlers are functions of the middle language as selection writes
/// them, does what the middle code does: on every board whose registers hold words, with every schedule of words, after every number
/// of slots.
pub fn compiled_images_run()
    ensures { CompiledImagesRun }
{}

/// One such image: five goes to a port in an atomic statement, at boot and at each line.
pub fn atomic_runs()
    ensures { AtomicRuns }
{}

/// Begin and end of an atomic statement are, as pieces, what selection writes for them.
pub fn statements_are_pieces()
    ensures { StatementsArePieces }
{}

/// Where such functions and the pieces are laid out together, with the items that selection and `code_pieces` give, the mote does what
/// the middle code does.
pub fn laid_programs_run()
    ensures { LaidProgramsRun }
{}

/// Where functions are laid out one behind another, the table of silent actions is that of their parts, and code behind them has none.
pub fn tables_are_marked()
    ensures { TablesAreMarked }
{}
