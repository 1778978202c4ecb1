// What is answered for the text of a figures file (document 01, "Numbers answered").
ghost use Rattle.std.specs.Prelude.{◌≡◌};
ghost use Rattle.planner.specs.declared.answers.Refusal.TheVariants.{File as OfFile};
ghost use Rattle.planner.specs.Plans.{number_of, place_of};

use figures::Fault;

// Why there is no plan, in the order in which it is looked for.
#[derive(Clone, Copy, Debug, PartialEq, Eq)]
pub enum Refusal {
    // The reader refuses the text.
    File(Fault),
    // There are more than 11 relations.
    Many,
    // The model is unknown.
    UnknownModel,
    // The limit is above 2^60.
    HighLimit,
    // The room for the tree is below the needed length.
    ShortText,
    // No tree is within the limit.
    NoPlan,
}

impl Refusal {
    // Where the reader found the fault; 0 for all that is not in the text.
    pub fn place(self) -> usize
        ensures { result ≡ place_of self }
    {
        match self {
            Refusal::File(fault) => fault.at,
            _ => 0,
        }
    }
}

impl From<Refusal> for u32 {
    ghost from_gives = { λ why number. number ≡ number_of why };

    fn from(why: Refusal) -> u32 {
        match why {
            Refusal::File(fault) => u32::from(fault.why),
            Refusal::Many => 16,
            Refusal::UnknownModel => 4,
            Refusal::HighLimit => 5,
            Refusal::ShortText => 9,
            Refusal::NoPlan => 7,
        }
    }
}

impl From<Fault> for Refusal {
    ghost from_gives = { λ fault why. why ≡ OfFile fault };

    fn from(fault: Fault) -> Refusal {
        Refusal::File(fault)
    }
}

// The plan for all relations, and the length of its text.
#[derive(Clone, Copy, Debug, PartialEq, Eq)]
pub struct Plan {
    pub cost: u64,
    pub size: u32,
    pub length: usize,
}
