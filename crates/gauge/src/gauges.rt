// What a gauge is, and the measure by a table of forms.
ghost use Rattle.std.specs.Prelude.{◌≡◌, List, map};
ghost use Rattle.coordinates.specs.Values.{value};
ghost use Rattle.geometry.specs.Points.{step_value};
ghost use Rattle.gauge.specs.Measure.{Form, at, measure, top, Lawful};
ghost use Rattle.gauge.specs.Forms.{form_value};

use crate::LinearForm;
use coordinates::{Offset, Quadratic};
use geometry::Step;

pub trait Gauge {
    // The forms that the gauge means. They measure steps of every size.
    ghost forms: { Self → List Form };

    fn measure(&self, step: Step) -> Quadratic
        ensures { value result ≡ measure (forms self.now) (step_value step) };

    ghost lawful: { (g : Self) → Lawful (forms g) };
}

impl LinearForm {
    // The value of the form at a step.
    pub fn at(self, step: Step) -> Quadratic
        ensures { value result ≡ at (form_value self) (step_value step) }
    {
        step.dot(
            Offset::small(self.fp, self.fq),
            Offset::small(self.hp, self.hq),
        )
    }
}

// The largest of a number and the values of the forms of a table.
fn largest_from(best: Quadratic, forms: &[LinearForm], step: Step) -> Quadratic
    ensures { value result ≡ top (value best) (map form_value forms.now) (step_value step) }
{
    let mut best = best;
    for form in forms {
        best = form.at(step).max(best);
    }
    best
}

// The largest value of the forms of a table at a step; 0 where the table is empty.
pub fn largest_value(forms: &[LinearForm], step: Step) -> Quadratic
    ensures { value result ≡ measure (map form_value forms.now) (step_value step) }
{
    let [first, rest @ ..] = forms else {
        return Quadratic { p: 0, q: 0 };
    };
    largest_from(first.at(step), rest, step)
}
