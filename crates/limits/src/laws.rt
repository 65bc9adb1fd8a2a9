//! That the code's limits are those of the definitions.
ghost use Rattle.limits.specs.Agree.{LimitsAgree};

/// Each limit of the code is the number that the definitions state.
pub fn limits_law()
    ensures { LimitsAgree }
{}
