ghost use Rattle.script_shell.specs.Laws.{AnswersStay, BenchRefusesNothing, SoundTranscriptsReplay};

/// A transcript replays where the certificates of its yes verdicts are sound: each is a part of it, in order, and is accepted.
pub fn sound_transcripts_replay()
    ensures { SoundTranscriptsReplay }
{}

/// In the script that a bench runs no command is refused: the bounds of its numbers keep each condition.
pub fn bench_refuses_nothing()
    ensures { BenchRefusesNothing }
{}

/// What is answered stays so, whatever bytes follow, and a transcript begins with it.
pub fn answers_stay()
    ensures { AnswersStay }
{}
