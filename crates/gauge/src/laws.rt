// Theorems about gauges, each on a contract so that its proof is asked for.
ghost use Rattle.gauge.specs.Laws.{GaugesStand};

// Every gauge takes the largest value of its forms, obeys the triangle inequality, scales, and measures a step and its opposite alike.
pub fn gauges_stand()
    ensures { GaugesStand }
{}
