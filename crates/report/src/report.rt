// A report that was read from a slip.
ghost use Rattle.std.specs.Prelude.{◌≡◌, true};
ghost use Rattle.report.specs.Needs.{keeps_needs};

pub mod read;

use crate::details::Details;
use crate::parties::Parties;
use amounts::amount::Amount;
use calendar::date::Date;
use fields::field::report::{Action, Level};

// What one side says of a trade or position. It has what its action needs; what the action does not need may stand in
// it too.
#[derive(Clone, Copy)]
pub struct Report {
    pub parties: Parties,
    pub action: Action,
    pub level: Option<Level>,
    pub eligible: Option<Date>,
    pub details: Details,
    pub valuation: Option<Amount>,
    ghost needs: { keeps_needs action level eligible details valuation ≡ true },
}
