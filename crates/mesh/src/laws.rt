// Theorems about sound surfaces and verdicts. Each call is a statement with its proof.
ghost use Rattle.mesh.specs.Sound.{FansEnd};
ghost use Rattle.mesh.specs.Verdict.{VerdictsAgree};

// Going on in a fan comes to an end, as going back does.
pub fn fans_end()
    ensures { FansEnd }
{}

// The contract of a validation leaves one answer for each lists.
pub fn verdicts_agree()
    ensures { VerdictsAgree }
{}
