// What a row shows.
ghost use Rattle.std.specs.Prelude.{◌≡◌, Some};
ghost use Rattle.rows.specs.Words.{state_of_pair, state_text};

use sheets::finding::PairState;
use std::fmt;

#[derive(Clone, Copy, Debug, PartialEq, Eq)]
pub enum State {
    // not due yet
    Wait,
    // a party or the country is not registered
    Outs,
    // no other side came in time
    Laps,
    // no other side yet
    Npar,
    // the other side says the same
    Mach,
    // a field of the first category differs
    Err1,
    // a field of the second category differs, none of the first
    Err2,
    // withdrawn and freed: in notices only
    Gone,
}

impl From<PairState> for State {
    ghost from_gives = { λ pair state. state ≡ state_of_pair pair };

    fn from(pair: PairState) -> State {
        match pair {
            PairState::Mach => State::Mach,
            PairState::Err1 => State::Err1,
            PairState::Err2 => State::Err2,
        }
    }
}

impl fmt::Display for State {
    ghost output = { λ state. Some (state_text state) };

    fn fmt<W: fmt::Write>(&self, f: &mut fmt::Formatter<W>) -> fmt::Result {
        f.write_str(match self {
            State::Wait => "WAIT",
            State::Outs => "OUTS",
            State::Laps => "LAPS",
            State::Npar => "NPAR",
            State::Mach => "MACH",
            State::Err1 => "ERR1",
            State::Err2 => "ERR2",
            State::Gone => "GONE",
        })
    }
}
