// The problem: definitions in specs/, theorems about them in proofs/, and the types that the definitions share with the code.
#![tactic(auto)]

ghost use Rattle.std.specs.Prelude.{◌≡◌};
ghost use Rattle.chain.specs.Numbers.{number_of, code_of, chosen_of};

use bound::Bound;

// The methods of planning: the table, bidding, bisection and Nicol's search.
#[derive(Clone, Copy, Debug, PartialEq, Eq)]
pub enum Method {
    Table = 1,
    Bidding = 2,
    Bisection = 3,
    Nicol = 4,
}

// Inner. The number of a method.
impl From<Method> for u32 {
    ghost from_gives = { λ method number. number ≡ number_of method };

    fn from(method: Method) -> u32 {
        method as u32
    }
}

// Inner. The method with this number. No other number is a method's.
impl TryFrom<u32> for Method {
    type Error = Refusal;

    ghost try_from_gives = { λ number chosen. chosen ≡ chosen_of number };

    fn try_from(number: u32) -> Result<Method, Refusal> {
        match number {
            1 => Ok(Method::Table),
            2 => Ok(Method::Bidding),
            3 => Ok(Method::Bisection),
            4 => Ok(Method::Nicol),
            _ => Err(Refusal::UnknownMethod),
        }
    }
}

// Why a call cannot answer, with the scope's numbers.
#[derive(Clone, Copy, Debug, PartialEq, Eq)]
pub enum Refusal {
    UnknownMethod = 1,
    PartialRecord = 2,
    UnknownRecord = 3,
    ProcessorAfterTask = 4,
    SpeedRange = 5,
    WeightRange = 6,
    ProcessorCount = 7,
    TaskCount = 8,
    ShortList = 9,
    BoundRange = 10,
    NoPartition = 11,
    PlanLength = 12,
    UntruePlan = 13,
    UnequalRow = 14,
    LateStartup = 15,
    StartupRange = 16,
    FewHolds = 17,
    HoldsSet = 18,
}

// Inner. The number of a refusal.
impl From<Refusal> for u32 {
    ghost from_gives = { λ refusal number. number ≡ code_of refusal };

    fn from(refusal: Refusal) -> u32 {
        refusal as u32
    }
}

// The answer of a probe ("trial"): it fits, with the number of processors that its walk came to, or it fails with the least next bid.
#[derive(Clone, Copy)]
pub enum Outcome {
    Fits(usize),
    Fails(Bound),
}

// The two ends of bisection.
#[derive(Clone, Copy)]
pub struct Ends {
    pub low: Bound,
    pub high: Bound,
}
