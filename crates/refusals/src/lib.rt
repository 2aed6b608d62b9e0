// Why a call refuses, and the numbers of the refusals: 01's ("Refusal numbers"), and behind them 02's.
#![tactic(auto)]

ghost use Rattle.std.specs.Prelude.{◌≡◌};
ghost use Rattle.refusals.specs.Numbers.{number_of, answer_of};

#[derive(Clone, Copy, PartialEq, Eq)]
pub enum Refusal {
    Rate,
    Slot,
    Size,
    Elapsed,
    Lengths,
    Logs,
    Seconds,
    Tag,
    Value,
    Place,
    Script,
    Room,
    HeaderCut,
    WrongLength,
    ValueCut,
    Attenuation,
    Record,
}

impl From<Refusal> for u64 {
    ghost from_gives = { λ r n. n ≡ number_of r };

    fn from(refusal: Refusal) -> u64 {
        match refusal {
            Refusal::Rate => 1,
            Refusal::Slot => 2,
            Refusal::Size => 3,
            Refusal::Elapsed => 4,
            Refusal::Lengths => 5,
            Refusal::Logs => 6,
            Refusal::Seconds => 7,
            Refusal::Tag => 8,
            Refusal::Value => 10,
            Refusal::Place => 11,
            Refusal::Script => 12,
            Refusal::Room => 13,
            Refusal::HeaderCut => 14,
            Refusal::WrongLength => 15,
            Refusal::ValueCut => 16,
            Refusal::Attenuation => 18,
            Refusal::Record => 19,
        }
    }
}

// 0 unless it refuses.
pub fn answer_number<T: Drop>(answer: Result<T, Refusal>) -> u64
    ensures { result ≡ answer_of answer }
{
    match answer {
        Ok(_) => 0,
        Err(refusal) => u64::from(refusal),
    }
}
