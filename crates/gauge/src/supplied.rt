// The supplied gauges: L1 and maximum by formula, octagon by a table of forms.
ghost use Rattle.gauge.specs.Forms.{l1_forms, maximum_forms, octagon_forms};
ghost use Rattle.gauge.specs.LawfulForms.{l1_lawful, maximum_lawful, octagon_lawful};

use crate::LinearForm;
use crate::gauges::{Gauge, largest_value};
use coordinates::Quadratic;
use geometry::Step;

// |dx| + |dy|.
#[derive(Debug, Clone, Copy, PartialEq, Eq)]
pub struct L1;

// The larger of |dx| and |dy|.
#[derive(Debug, Clone, Copy, PartialEq, Eq)]
pub struct Maximum;

// The norm whose unit ball is a regular octagon, scaled so that every part is whole.
#[derive(Debug, Clone, Copy, PartialEq, Eq)]
pub struct Octagon;

// Written out: a constant's value can call no function.
const OCTAGON: [LinearForm; 8] = [
    LinearForm {
        fp: 0,
        fq: 1,
        hp: 0,
        hq: 0,
    },
    LinearForm {
        fp: 1,
        fq: 0,
        hp: 1,
        hq: 0,
    },
    LinearForm {
        fp: 0,
        fq: 0,
        hp: 0,
        hq: 1,
    },
    LinearForm {
        fp: -1,
        fq: 0,
        hp: 1,
        hq: 0,
    },
    LinearForm {
        fp: 0,
        fq: -1,
        hp: 0,
        hq: 0,
    },
    LinearForm {
        fp: -1,
        fq: 0,
        hp: -1,
        hq: 0,
    },
    LinearForm {
        fp: 0,
        fq: 0,
        hp: 0,
        hq: -1,
    },
    LinearForm {
        fp: 1,
        fq: 0,
        hp: -1,
        hq: 0,
    },
];

impl Gauge for L1 {
    ghost forms = { λ _. l1_forms };

    ghost lawful = { λ g. l1_lawful };

    fn measure(&self, step: Step) -> Quadratic {
        step.dx.magnitude() + step.dy.magnitude()
    }
}

impl Gauge for Maximum {
    ghost forms = { λ _. maximum_forms };

    ghost lawful = { λ g. maximum_lawful };

    fn measure(&self, step: Step) -> Quadratic {
        Quadratic::from(step.dx.magnitude()).max(step.dy.magnitude().into())
    }
}

impl Gauge for Octagon {
    ghost forms = { λ _. octagon_forms };

    ghost lawful = { λ g. octagon_lawful };

    fn measure(&self, step: Step) -> Quadratic {
        largest_value(&OCTAGON, step)
    }
}
