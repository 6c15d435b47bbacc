//! Selected code meets the open law.

ghost use Rattle.msp_select.specs.AtomicRow.{AtomicRowIsOpen, AtomicRowIsPaced};
ghost use Rattle.msp_select.specs.Frames.{FramesAreSmall};
ghost use Rattle.msp_select.specs.Laid.{LaidCodeStands};
ghost use Rattle.msp_select.specs.Routine.{LoneReturnGivesBack};
ghost use Rattle.msp_select.specs.Sound.{FramesFit, SelectedCodeIsOpen};
ghost use Rattle.msp_select.specs.Weight.{SelectedCodeIsPaced};

/// Where its code stands in an image, a function without parameters does what the open machine does, whatever happens between
/// its instructions.
pub fn selected_code_is_open()
    ensures { SelectedCodeIsOpen }
{}

/// The homes on the stack that selection chooses meet what its law asks of homes: they lie in the frame, behind its bytes, and
/// apart from each other and from the return address.
pub fn frames_fit()
    ensures { FramesFit }
{}

/// The law's premises can be met: a function that writes to a port in an atomic statement, with the words of its code.
pub fn atomic_row_is_open()
    ensures { AtomicRowIsOpen }
{}

/// What a function holds on the stack, with what its callers push for it, is at most its frame and two bytes for each value,
/// rounded up to an even number.
pub fn frames_are_small()
    ensures { FramesAreSmall }
{}

/// Where functions with these items are laid out, and the table of silent actions is theirs, the code stands as the law asks.
pub fn laid_code_stands()
    ensures { LaidCodeStands }
{}

/// The same law with a bound that counts instructions: of so many as the heaviest state holds, one entry, one piece and two, one does
/// an action or is the last.
pub fn selected_code_is_paced()
    ensures { SelectedCodeIsPaced }
{}

/// What the law asks of a routine can be met: a lone RET gives the values that it is passed.
pub fn lone_return_gives_back()
    ensures { LoneReturnGivesBack }
{}

/// The same function with its bound of instructions.
pub fn atomic_row_is_paced()
    ensures { AtomicRowIsPaced }
{}
