// The answers of the public calls and the eighteen refusals. The functions are for the crates above and no public calls.
#![tactic(auto)]

ghost use Rattle.std.specs.Prelude.{◌≡◌, ℕ, ◌^◌, ◌<◌, ⊤};
ghost use Rattle.answer.specs.Answer.{number_of, one_number, code};
ghost use Rattle.answer.specs.Inner.{Fits};

// Why a call refuses, in the order of the numbers.
#[derive(Clone, Copy)]
pub enum Refusal {
    TooLong,
    EndsEarly,
    Departs,
    BytesFollow,
    TooManyRecords,
    WrongPrefix,
    UnlawfulKey,
    KeysNotRising,
    WrongTree,
    WrongDigest,
    WrongValue,
    KeyAbsent,
    NoRoom,
    FirstAfterLast,
    NoSuchScreen,
    PageNotDue,
    UntrueHead,
    WrongStates,
}

// The number of a refusal.
impl From<Refusal> for u64 {
    ghost from_gives = { λ refusal number. number ≡ number_of refusal };

    fn from(refusal: Refusal) -> u64 {
        match refusal {
            Refusal::TooLong => 1,
            Refusal::EndsEarly => 2,
            Refusal::Departs => 3,
            Refusal::BytesFollow => 4,
            Refusal::TooManyRecords => 5,
            Refusal::WrongPrefix => 6,
            Refusal::UnlawfulKey => 7,
            Refusal::KeysNotRising => 8,
            Refusal::WrongTree => 9,
            Refusal::WrongDigest => 10,
            Refusal::WrongValue => 11,
            Refusal::KeyAbsent => 12,
            Refusal::NoRoom => 13,
            Refusal::FirstAfterLast => 14,
            Refusal::NoSuchScreen => 15,
            Refusal::PageNotDue => 16,
            Refusal::UntrueHead => 17,
            Refusal::WrongStates => 18,
        }
    }
}

// The values of a call that is done, as one number.
pub trait Values {
    ghost joined: { Self → ℕ };

    ghost Small: { Self → Type 0 };

    fn join(self) -> u64
        requires { Small self }
        ensures { (result ≡ joined self) × (result < 2 ^ 56) };
}

impl Values for u32 {
    ghost joined = { λ value. value };

    ghost Small = { λ _. ⊤ };

    fn join(self) -> u64 {
        u64::from(self)
    }
}

// The second value stands above the 24 bits of the first.
impl Values for (u32, u32) {
    ghost joined = { one_number };

    ghost Small = { λ values. values.0 < 2 ^ 24 };

    fn join(self) -> u64 {
        let (first, second) = self;
        u64::from(first) + 0x100_0000 * u64::from(second)
    }
}

// An answer as the one number that the C interface returns.
pub fn encode<T: Values>(answer: Result<T, Refusal>) -> u64
    requires { Fits T.Small answer }
    ensures { result ≡ code T.joined answer }
{
    match answer {
        Ok(values) => 256 * values.join(),
        Err(refusal) => u64::from(refusal),
    }
}
