// What an action comes to at a row that is there.
ghost use Rattle.std.specs.Prelude.{◌≡◌, OnErr};
ghost use Rattle.std.specs.Result.{result_map_both};
ghost use Rattle.refusals.specs.Words.{parts_of};
ghost use Rattle.rows.specs.Standings.{taken};

use super::Row;
use crate::standing::Standing;
use fields::field::report::Action;
use refusals::refusal::Refusal;

impl Row {
    // Lets the row take an action, by how it stands, or refuses it: what would enter a row is entered already, and what such a
    // row does not take its standing forbids. Nothing but the standing changes.
    pub fn take_action(&mut self, action: Action) -> Result<(), Refusal>
        ensures answer { result_map_both (λ _. self.new.standing) parts_of result ≡ result_map_both (λ s. s) parts_of (taken self.old.standing action) }
        ensures others { self.new ≡ record self.old { standing = self.new.standing } }
        ensures refused { OnErr result (self.new ≡ self.old) }
    {
        match (self.standing, action) {
            (Standing::Active, Action::Modify | Action::Correction | Action::ValuationUpdate) => {
                self.standing = Standing::Active;
                Ok(())
            }
            (Standing::Active, Action::EarlyTermination | Action::Compression) => {
                self.standing = Standing::Ended;
                Ok(())
            }
            (Standing::Ended, Action::Correction) => {
                self.standing = Standing::Ended;
                Ok(())
            }
            (Standing::Active | Standing::Ended, Action::Error) => {
                self.standing = Standing::Withdrawn;
                Ok(())
            }
            (_, Action::New | Action::PositionComponent) => Err(Refusal::AlreadyEntered),
            (_, _) => Err(Refusal::StandingForbids),
        }
    }
}
