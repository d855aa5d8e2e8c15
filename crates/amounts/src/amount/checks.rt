// Two amounts compared: equality and the two tolerance checks on amounts.
ghost use Rattle.std.specs.Prelude.{◌≡◌};
ghost use Rattle.amounts.specs.Amounts.{worth};
ghost use Rattle.amounts.specs.Checks.{cut, same, same_whole, within_one_percent};

use super::Amount;

impl Amount {
    // The whole number that is left when the fraction is cut off, toward zero.
    #[tactic(auto, using(crate::proofs::Shortest::whole_units))]
    fn whole_number(&self) -> i128
        ensures { result ≡ cut (worth self.now) }
    {
        let whole = self.whole_part() as i128;
        if self.negative { -whole } else { whole }
    }

    // Whether both are the same value: the derived equality, told of values, each of which has one representation.
    #[tactic(auto, using(crate::proofs::Laws::same_fields))]
    pub fn same_value(&self, other: &Amount) -> bool
        ensures { result ≡ same (worth self.now) (worth other.now) }
    {
        self == other
    }

    // Tolerance check 1: whether the two lie within one percent of the greater magnitude.
    pub fn within_one_percent(&self, other: &Amount) -> bool
        ensures { result ≡ within_one_percent (worth self.now) (worth other.now) }
    {
        if self.negative != other.negative {
            return false;
        }
        // taken apart once each: that is where the divisions are
        let (parts, others) = (self.parts(), other.parts());
        parts.within(others) && others.within(parts)
    }

    // Tolerance check 2: whether one whole number is left of both when their fractions are dropped.
    pub fn same_whole(&self, other: &Amount) -> bool
        ensures { result ≡ same_whole (worth self.now) (worth other.now) }
    {
        self.whole_number() == other.whole_number()
    }
}
