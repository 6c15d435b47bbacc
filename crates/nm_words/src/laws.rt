//! Laws of the command line.

ghost use Rattle.nm_words.specs.Laws.{AsksOneThing, RefusesOthersAlone};

/// Words ask for one thing at most, and for nothing where they are refused.
pub fn one_answer()
    ensures one { AsksOneThing }
    ensures apart { RefusesOthersAlone }
{}
