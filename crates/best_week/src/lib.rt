// The best seven days of a run: the lowest total of moves minus par over seven consecutive days.
#![tactic(auto)]

pub mod best;
pub mod run;
pub mod streak;

ghost use Rattle.std.specs.Prelude.{◌≡◌, ◌*◌, ◌≤◌, length};
ghost use Rattle.base.specs.Limits.{record_length};
ghost use Rattle.base.specs.Refusal.{number_of};
ghost use Rattle.best_week.specs.BestWeek.{week_days, IsBestWeek};
ghost use Rattle.best_week.specs.Walk.{BestUpTo};
ghost use Rattle.best_week.specs.Answer.{found_of, total_of, day_of};

use crate::best::Best;
use crate::streak::Streak;
use base::refusal::Refusal;

// The total of a week and its first day.
#[derive(Clone, Copy)]
pub struct Week {
    pub total: i64,
    pub day: u64,
}

// The best week of n records, seven or more.
fn best_of(run: &[u8], n: usize) -> Option<Best>
    requires { (week_days ≤ n) × (record_length * n ≤ length run.now) }
    ensures { BestUpTo run.now n result }
{
    let first = run::over_par(run, 0);
    let mut streak = Streak {
        days: 1,
        total: first,
    };
    let mut best = None;
    for i in 1..n {
        streak = streak.add_day(run, i);
        let days = streak.days;
        if days < streak::WEEK_DAYS {
            continue;
        }
        best = best::take_week(best, i + 1 - streak::WEEK_DAYS, streak.total);
    }
    best
}

// The best week of a run, where it has one, or a refusal: 20 or 21.
pub fn best_week(run: &[u8]) -> Result<Option<Week>, Refusal>
    ensures { IsBestWeek run.now (number_of result) (found_of result) (total_of result) (day_of result) }
{
    run::run_refusal(run)?;
    let n = record::number_of(run.len());
    if n < streak::WEEK_DAYS {
        return Ok(None);
    }
    let Some(best) = best_of(run, n) else {
        return Ok(None);
    };
    let day = run::day(run, best.at);
    Ok(Some(Week {
        total: best.total,
        day,
    }))
}
