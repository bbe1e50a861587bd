ghost use Rattle.std.specs.Prelude.{ℕ};
ghost use Rattle.flip_certificate.specs.Laws.{OneCertificate, OneText, NoneBeginsAnother, ReadsTheSpelled, FormLines, ValidHasNoFault, FirstStuck, FirstDifference};
ghost use Rattle.flip_certificate.specs.Valid.{Faults};

/// No text is that of two certificates.
pub fn one_certificate()
    ensures { OneCertificate }
{}

/// No certificate has two texts.
pub fn one_text()
    ensures { OneText }
{}

/// No certificate's text is a proper front of another's.
pub fn none_begins_another()
    ensures { NoneBeginsAnother }
{}

/// A certificate is valid exactly where none of the tests fails, whatever stands for their failing.
pub fn valid_has_no_fault()
    ensures { (faults : Faults ℕ) → ValidHasNoFault faults }
{}

/// A certificate is read exactly where it is spelled.
pub fn reads_the_spelled()
    ensures { ReadsTheSpelled }
{}

/// Where none is read, the line answered is one more than the greatest number of complete lines with which some spelling begins.
pub fn form_lines()
    ensures { FormLines }
{}

/// The flip that a fault names is the first that is not allowed where it stands.
pub fn first_stuck()
    ensures { FirstStuck }
{}

/// The place that a fault of the blocks names is the first at which their vertices and those of the complex differ.
pub fn first_difference()
    ensures { FirstDifference }
{}
