// The parts of an amount before and behind its dot.
ghost use Rattle.std.specs.Prelude.{◌≡◌, ◌+◌, ◌*◌, ◌^◌, ◌<◌, ◌≤◌, nat_le};
ghost use Rattle.amounts.specs.Amounts.{magnitude, whole_of};
ghost use Rattle.amounts.specs.Units.{units_per_one};

use super::Amount;

// How many units make one, written out since a constant's value takes no call.
const ONE: u128 = 10_000_000_000_000_000_000;

// 10^n.
#[tactic(auto, using(texts::proofs::Powers::ten_pos))]
pub(super) fn power_of_ten(n: u8) -> u128
    requires { n ≤ 20 }
    ensures value { result ≡ 10 ^ n }
    ensures positive { 0 < result }
{
    10u128.pow(u32::from(n))
}

// A whole part, and the units that a fraction makes. The derived order is that of the values.
#[derive(Clone, Copy, PartialEq, PartialOrd)]
pub(super) struct Parts {
    whole: u128,
    fraction: u128,
    ghost below_one: { fraction < units_per_one },
}

impl Parts {
    // So many times as much. Whole part and fraction are multiplied apart, since 10^41 units are past 128 bits.
    pub(super) fn times(self, factor: u8) -> Parts
        requires { self.whole < 10 ^ 20 }
        ensures { result.whole * units_per_one + result.fraction ≡ (self.whole * units_per_one + self.fraction) * factor }
    {
        let factor = u128::from(factor);
        let units = self.fraction * factor;
        let more = units / ONE;
        Parts {
            whole: self.whole * factor + more,
            // and no remainder, which would divide once more
            fraction: units - more * ONE,
        }
    }

    // Whether 99 times as much is at most 100 times the other.
    pub(super) fn within(self, other: Parts) -> bool
        requires { (self.whole < 10 ^ 20) × (other.whole < 10 ^ 20) }
        ensures { result ≡ nat_le ((self.whole * units_per_one + self.fraction) * 99) ((other.whole * units_per_one + other.fraction) * 100) }
    {
        self.times(99) <= other.times(100)
    }
}

impl Amount {
    // The part before the dot.
    pub(super) fn whole_part(&self) -> u128
        ensures { result ≡ whole_of self.now }
    {
        self.digits / power_of_ten(self.places)
    }

    // The parts of the magnitude.
    #[tactic(auto, using(crate::proofs::Parts::split_value, crate::proofs::Parts::split_fraction))]
    pub(super) fn parts(&self) -> Parts
        ensures value { result.whole * units_per_one + result.fraction ≡ magnitude self.now }
        ensures whole { result.whole < 10 ^ 20 }
    {
        let unit = power_of_ten(self.places);
        Parts {
            whole: self.digits / unit,
            fraction: self.digits % unit * power_of_ten(19 - self.places),
        }
    }
}
