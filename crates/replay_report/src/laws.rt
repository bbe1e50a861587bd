ghost use Rattle.replay_report.specs.Laws.{SpelledIsOnePart, CertificatesAreTheParts, ValidIsAccepted};

/// The text of a certificate is one part, and nothing is left of it.
pub fn spelled_is_one_part()
    ensures { SpelledIsOnePart }
{}

/// The parts of a transcript are the texts of the certificates in it, in order.
pub fn certificates_are_the_parts()
    ensures { CertificatesAreTheParts }
{}

/// The text of a valid certificate is accepted.
pub fn valid_is_accepted()
    ensures { ValidIsAccepted }
{}
