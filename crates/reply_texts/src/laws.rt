ghost use Rattle.reply_texts.specs.Laws.{RepliesAreLines};

/// Each reply is one line, and behind that of a yes stands the text of its certificate.
pub fn replies_are_lines()
    ensures { RepliesAreLines }
{}
