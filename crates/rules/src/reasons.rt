// The refusals by name, as code says them, each with its number. The contracts say the numbers by the names of specs/Reasons.
ghost use Rattle.std.specs.Prelude.{◌≡◌};
ghost use Rattle.rules.specs.ReasonNumbers.{number};

use basics::Refusal;

#[derive(Clone, Copy)]
pub enum Reason {
    BadBound = 1,
    BadForm = 2,
    TableTooLong = 3,
    PlanTooLong = 4,
    TableEnds = 5,
    BadNumber = 6,
    OutOfRange = 7,
    NotThere = 8,
    BytesAfterTable = 9,
    NoSuchSection = 10,
    LineShape = 11,
    NotEmitted = 12,
    NotApplicable = 13,
    StackNotEmpty = 14,
    GoalMissing = 15,
    NoRoom = 16,
    BadLimits = 17,
    NoPlan = 18,
    OverBudget = 19,
}

impl Reason {
    // The refusal for this reason, at a place.
    pub fn at(self, place: u64) -> Refusal
        ensures { result ≡ record { number = number self; place = place } }
    {
        Refusal {
            number: self as u64,
            place,
        }
    }
}
