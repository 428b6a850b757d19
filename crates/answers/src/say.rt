// What an accepted call says of its value, and how that is put into a lent list.
ghost use Rattle.std.specs.Prelude.{◌≡◌, ℕ, List, [], ◌∷◌};
ghost use Rattle.refusals.specs.Answers.{answer_said, bound_values};
ghost use Rattle.jobs.specs.Answers.{read_values};
ghost use Rattle.grading.specs.Answers.{grade_values};
ghost use Rattle.planner.specs.Answers.{figure_values};
ghost use Rattle.answers.specs.Answer.{values_put, said_put, outcome_entries};

use bound::Bound;
use chain::{Outcome, Refusal};
use grading::Grade;
use jobs::JobRead;
use planner::Figures;

// Inner. Writes the values into the first entries. Those for which there is no entry are dropped.
pub fn put_values(answer: &mut [u64], values: &[u64])
    ensures { answer.new ≡ values_put 0 values.now answer.old }
{
    let count = answer.len().min(values.len());
    answer[..count].copy_from_slice(&values[..count]);
}

// What a call that is accepted says of its value: numbers, which go into the first entries of a lent list.
pub trait Say {
    ghost entries: { Self → List ℕ };

    fn say(self, answer: &mut [u64])
        ensures { answer.new ≡ values_put 0 (entries self) answer.old };
}

impl Say for Bound {
    ghost entries = { bound_values };

    fn say(self, answer: &mut [u64]) {
        put_values(answer, &[self.load, self.speed]);
    }
}

// The count of bytes that are written.
impl Say for usize {
    ghost entries = { λ count. count ∷ [] };

    fn say(self, answer: &mut [u64]) {
        put_values(answer, &[self as u64]);
    }
}

impl Say for JobRead {
    ghost entries = { read_values };

    fn say(self, answer: &mut [u64]) {
        let edition = if self.second { 2 } else { 1 };
        put_values(
            answer,
            &[
                edition,
                u64::from(self.startup),
                self.processors as u64,
                self.tasks as u64,
            ],
        );
    }
}

// 1 for best, 2 for valid.
impl Say for Grade {
    ghost entries = { grade_values };

    fn say(self, answer: &mut [u64]) {
        put_values(answer, &[self as u64]);
    }
}

// The count, the allowance, the bottleneck and the imbalance.
impl Say for Figures {
    ghost entries = { figure_values };

    fn say(self, answer: &mut [u64]) {
        put_values(
            answer,
            &[
                u64::from(self.count),
                u64::from(self.allowance),
                self.bottleneck.load,
                self.bottleneck.speed,
                self.imbalance,
            ],
        );
    }
}

// 1 for a fit, and the number of machines that the walk came to; or 0, and the next bid.
impl Say for Outcome {
    ghost entries = { outcome_entries };

    fn say(self, answer: &mut [u64]) {
        match self {
            Outcome::Fits(visited) => put_values(answer, &[1, visited as u64]),
            Outcome::Fails(next) => put_values(answer, &[0, next.load, next.speed]),
        }
    }
}

// Inner. The number of the answer; what it says goes into the list.
pub fn put_answer<T: Say>(answer: &mut [u64], said: Result<T, Refusal>) -> u32
    ensures number { result ≡ (answer_said T.entries said).number }
    ensures answer { answer.new ≡ said_put (answer_said T.entries said) answer.old }
{
    match said {
        Ok(value) => {
            value.say(answer);
            0
        }
        Err(refusal) => u32::from(refusal),
    }
}
