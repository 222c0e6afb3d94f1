// The last records read whose days are consecutive, with a total that is kept by adding the new day and removing the
// old.
ghost use Rattle.std.specs.Prelude.{◌≡◌, ◌+◌, ◌<◌, ◌≤◌};
ghost use Rattle.best_week.specs.BestWeek.{follows};
ghost use Rattle.best_week.specs.Walk.{Inside, StreakAt};

use crate::run;

pub const WEEK_DAYS: usize = 7;

// How many they are, seven at most, and their total.
#[derive(Drop)]
pub struct Streak {
    pub days: usize,
    pub total: i64,
}

// Whether the day of record i is the one behind that of the record before.
fn follows(run: &[u8], i: usize) -> bool
    requires { (1 ≤ i) × Inside run.now i }
    ensures { result ≡ follows run.now i }
{
    run::day(run, i) == run::day(run, i - 1) + 1
}

impl Streak {
    // Record i is read too.
    pub fn add_day(self, run: &[u8], i: usize) -> Self
        requires { StreakAt run.now i self × Inside run.now i }
        ensures { StreakAt run.now (i + 1) result }
    {
        let new = run::over_par(run, i);
        if !follows(run, i) {
            return Streak {
                days: 1,
                total: new,
            };
        }
        let days = self.days;
        let before = self.total;
        let total = before + new;
        if days < WEEK_DAYS {
            return Streak {
                days: days + 1,
                total: total,
            };
        }
        let old = run::over_par(run, i - WEEK_DAYS);
        Streak {
            days: days,
            total: total - old,
        }
    }
}
