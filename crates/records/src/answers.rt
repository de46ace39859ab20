// The paper's number of a call's answer: 0 where the call is done, and else that of its refusal, which each error enum says. Assumes
// nothing.
ghost use Rattle.std.specs.Prelude.{◌≡◌, ℕ};
ghost use Rattle.records.specs.Numbers.{number_of, reason_number};

use crate::reading::Reason;

// Why a call is refused.
pub trait Refusal {
    ghost number: { Self → ℕ };

    fn number(&self) -> u32
        ensures { result ≡ number self.now };
}

impl Refusal for Reason {
    ghost number = { reason_number };

    fn number(&self) -> u32 {
        *self as u32
    }
}

pub fn number<T, E: Refusal>(answer: &Result<T, E>) -> u32
    ensures { result ≡ number_of E.number answer.now }
{
    match answer {
        Ok(_) => 0,
        Err(why) => why.number(),
    }
}
