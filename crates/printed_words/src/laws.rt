//! The law of printed words.

ghost use Rattle.printed_words.specs.LaidOut.{LaidWordsLex};

/// Words that are whole by themselves are the tokens of each text of them, where white space is left out only between bytes that are apart.
pub fn words_lex()
    ensures { LaidWordsLex }
{}
