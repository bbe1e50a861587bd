ghost use Rattle.flip_certificate.specs.Laws.{ValidHasNoFault};
ghost use Rattle.cert_replay.specs.Faults.{replay_faults};

/// A certificate has a fault of a replay exactly where it is not valid.
pub fn faulty_is_not_valid()
    ensures { ValidHasNoFault replay_faults }
{}
