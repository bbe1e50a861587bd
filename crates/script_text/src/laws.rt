ghost use Rattle.script_text.specs.Laws.{ReadsTheSpelled, SpelledApart};

/// Bytes are read as a command exactly where they are spelled with its tokens.
pub fn reads_the_spelled()
    ensures { ReadsTheSpelled }
{}

/// Two commands that are spelled with the same tokens are one.
pub fn spelled_apart()
    ensures { SpelledApart }
{}
