// The notice of a row.
ghost use Rattle.std.specs.Prelude.{◌≡◌};
ghost use Rattle.std.specs.Option.{option_map};
ghost use Rattle.rows.specs.Entries.{entry_of};
ghost use Rattle.rows.specs.Words.{told};
ghost use Rattle.rules.specs.Judging.{same_shown, shown};
ghost use Rattle.judging.specs.Lines.{found, notice_found, notice_told};

use rows::notice::Notice;
use rows::row::changes::uncompared;
use rows::row::{Fate, Row, Verdict};
use rows::state::State;

// Whether a row shows already what was found of it.
fn is_shown(row: &Row, verdict: &Verdict) -> bool
    ensures { result ≡ same_shown (told verdict.now.state verdict.now.findings) (shown (entry_of row.now)) }
{
    verdict.state == row.state && verdict.findings == row.findings
}

// The notice that a row gives by what was found of it: that it is freed, or what changes. None of a row that was not judged.
pub fn notice(row: &Row, fate: &Fate) -> Option<Notice>
    ensures { option_map notice_told result ≡ notice_found (entry_of row.now) (found fate.now) }
{
    match fate {
        Fate::Open => None,
        Fate::Freed => {
            let findings = uncompared();
            Some(Notice {
                key: row.key,
                state: State::Gone,
                findings,
            })
        }
        Fate::Stays(verdict) => {
            if is_shown(row, verdict) {
                return None;
            }
            let findings = verdict.findings;
            Some(Notice {
                key: row.key,
                state: verdict.state,
                findings,
            })
        }
    }
}
