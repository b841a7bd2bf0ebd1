// An answer of a call as one 64-bit number, since an exported function returns no more: a refusal's number stands from bit 56 on, a small
// result from bit 48 on, and a place or a count below.
//
//     pack     an answer, packed
//     Packs    what a call answers where it does not refuse
#![tactic(auto)]

ghost use Rattle.std.specs.Prelude.{◌≡◌, ℕ};
ghost use Rattle.packing.specs.Packed.{packed_refusal, packed, packed_nothing, packed_result, packed_truth, packed_counted, packed_end};
ghost use Rattle.packing.specs.Packed.{packed_rating, packed_settings};

use grading::Rating;
use grid::Refusal;
use jobfile::Settings;
use trials::trial::End;

// What a call answers where it does not refuse, and the bits that it packs to.
pub trait Packs {
    ghost bits: { Self → ℕ };

    fn bits(self) -> u64
        ensures { result ≡ bits self };
}

// No more than that it is accepted.
impl Packs for () {
    ghost bits = { packed_nothing };

    fn bits(self) -> u64 {
        0
    }
}

// A small result, such as the length of a clause.
impl Packs for usize {
    ghost bits = { packed_result };

    fn bits(self) -> u64 {
        ((self % 256) as u64) << 48
    }
}

// A small result, such as how many completions there are.
impl Packs for u32 {
    ghost bits = { packed_result };

    fn bits(self) -> u64 {
        (self as usize).bits()
    }
}

// Whether it is so, as 1 or 0.
impl Packs for bool {
    ghost bits = { packed_truth };

    fn bits(self) -> u64 {
        u32::from(self).bits()
    }
}

// A small result with a count, which by its type is within its bits.
fn counted(small: u32, count: u32) -> u64
    ensures { result ≡ packed_counted small count }
{
    small.bits() + u64::from(count)
}

impl Packs for End {
    ghost bits = { packed_end };

    fn bits(self) -> u64 {
        counted(self.outcome.number(), self.count)
    }
}

impl Packs for Rating {
    ghost bits = { packed_rating };

    fn bits(self) -> u64 {
        counted(self.verdict.number(), self.trials)
    }
}

impl Packs for Settings {
    ghost bits = { packed_settings };

    fn bits(self) -> u64 {
        counted(self.technique.number(), self.ceiling)
    }
}

// A refusal's number with the place that it names.
fn pack_refusal(refusal: Refusal) -> u64
    ensures { result ≡ packed_refusal refusal }
{
    (u64::from(refusal.number() % 256) << 56) + refusal.place() as u64 % (1 << 48)
}

// An answer, packed.
pub fn pack<T: Packs>(answer: Result<T, Refusal>) -> u64
    ensures { result ≡ packed T.bits answer }
{
    match answer {
        Ok(given) => given.bits(),
        Err(refusal) => pack_refusal(refusal),
    }
}
