// What a close tells.
ghost use Rattle.std.specs.Prelude.{◌≡◌};
ghost use Rattle.rows.specs.Blank.{blank_key};
ghost use Rattle.rows.specs.Entries.{uncompared};
ghost use Rattle.rows.specs.Keys.{key_of};
ghost use Rattle.rows.specs.Words.{told};
ghost use Rattle.rows.specs.declared.state.State.TheVariants.{Gone};

use crate::key::TradeKey;
use crate::row::blank::no_key;
use crate::row::changes::uncompared;
use crate::state::State;
use sheets::comparing::PLACES;
use sheets::finding::Finding;

// A row's new state and findings, or that it was freed.
#[derive(Clone, Copy)]
pub struct Notice {
    pub key: TradeKey,
    pub state: State,
    pub findings: [Finding; PLACES],
}

impl Notice {
    // A place that no notice has taken yet: what a host fills a list of places with before a close.
    pub fn blank() -> Notice
        ensures key { key_of result.key ≡ blank_key }
        ensures shown { told result.state result.findings ≡ told Gone uncompared }
    {
        let findings = uncompared();
        Notice {
            key: no_key(),
            state: State::Gone,
            findings,
        }
    }
}
