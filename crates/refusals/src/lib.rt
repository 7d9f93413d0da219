// Why a call is refused. Each cause has a number, which is what C and a script are told.
#![tactic(auto)]

ghost use Rattle.std.specs.Prelude.{◌≡◌};
ghost use Rattle.refusals.specs.Numbers.{number_of, answer};

// The causes, in the order in which they are looked for. 11 is a script's: a line that is not understood.
#[derive(Clone, Copy, Debug, PartialEq, Eq)]
pub enum Refusal {
    Size,
    Record,
    Closed,
    Down,
    Open,
    Address,
    Full,
    Foreign,
    Unsound,
    Marks,
    LastSave,
    InUse,
    Listed,
}

impl From<Refusal> for u32 {
    ghost from_gives = { λ refusal number. number ≡ number_of refusal };

    fn from(refusal: Refusal) -> u32 {
        match refusal {
            Refusal::Size => 1,
            Refusal::Record => 2,
            Refusal::Closed => 3,
            Refusal::Down => 4,
            Refusal::Open => 5,
            Refusal::Address => 6,
            Refusal::Full => 7,
            Refusal::Foreign => 8,
            Refusal::Unsound => 9,
            Refusal::Marks => 10,
            Refusal::LastSave => 12,
            Refusal::InUse => 13,
            Refusal::Listed => 14,
        }
    }
}

// The number that a result stands for: 0 if it is no refusal.
pub fn number<T: Copy>(said: Result<T, Refusal>) -> u32
    ensures { result ≡ answer said }
{
    match said {
        Ok(_) => 0,
        Err(refusal) => refusal.into(),
    }
}
