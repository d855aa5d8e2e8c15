// The passes of a close over the used rows: each is judged, then all that was found takes effect.
ghost use Rattle.std.specs.Prelude.{◌≡◌, ℕ, ◌≤◌, length};
ghost use Rattle.business.specs.BusinessDays.{day_no};
ghost use Rattle.closing.specs.Passes.{Passed, Settled, Settles};
ghost use Rattle.judging.specs.Lines.{close_of};

use business::business_day::BusinessDay;
use judging::judge::judge;
use judging::notice::notice;
use registers::Registers;
use rows::notice::Notice;
use rows::row::{Fate, Row};
use sheets::sheet::Sheet;

// Judges the used rows one after the other in the order of their keys, by what all of them hold before the close: what is
// found of a row stands beside what it holds until all are judged. Answers how many notices were put down, and how many
// pairs were taken up.
pub fn judge_all<S: Sheet>(
    sheet: &S,
    rows: &mut [Row],
    used: usize,
    today: BusinessDay,
    registers: &Registers,
    notices: &mut [Notice],
) -> (usize, usize)
    requires within { used ≤ length rows.old }
    requires room { used ≤ length notices.old }
    ensures { Passed (S.meaning sheet.now) (close_of registers.now (length notices.old)) (day_no today) used rows.old rows.new notices.old notices.new result.0 result.1 used }
{
    let mut sent = 0;
    let mut pairs = 0;
    for i in 0..used {
        let row = rows[i];
        let judged = judge(sheet, rows, used, &row, today, registers);
        if let Some(notice) = notice(&row, &judged.fate) {
            notices[sent] = notice;
            sent += 1;
        }
        if judged.is_taken_up {
            pairs += 1;
        }
        rows[i].fate = judged.fate;
    }
    (sent, pairs)
}

// The row once what was found of it takes effect.
fn settled(row: &Row) -> Row
    ensures { Settled row.now result }
{
    let Fate::Stays(verdict) = row.fate else {
        return *row;
    };
    let findings = verdict.findings;
    Row {
        tries: verdict.tries,
        state: verdict.state,
        findings,
        settled: verdict.paired,
        fate: Fate::Open,
        ..*row
    }
}

// Lets what was found of the used rows take effect.
pub fn settle_all(rows: &mut [Row], used: usize)
    requires { used ≤ length rows.old }
    ensures { Settles used rows.old rows.new }
{
    for i in 0..used {
        rows[i] = settled(&rows[i]);
    }
}
