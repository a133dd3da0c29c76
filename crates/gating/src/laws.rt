//! That the program's number is the definitions' own.
ghost use Rattle.std.specs.Prelude.{◌≡◌};
ghost use Rattle.gating.specs.declared.gates.TheConstants.{REACH};
ghost use Rattle.gating.specs.Gating.{reach};

/// How far a plot may lie from its track is the definitions' number.
pub fn one_reach()
    ensures { REACH ≡ reach }
{}
