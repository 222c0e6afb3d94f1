// The best week so far.
ghost use Rattle.std.specs.Prelude.{◌≡◌};
ghost use Rattle.best_week.specs.Walk.{take_week};

// Its first record and its total.
#[derive(Clone, Copy)]
pub struct Best {
    pub at: usize,
    pub total: i64,
}

// A week behind those before, from record `at` on: it is the best where its total is lower.
pub fn take_week(best: Option<Best>, at: usize, total: i64) -> Option<Best>
    ensures { result ≡ take_week best at total }
{
    let Some(before) = best else {
        return Some(Best { at, total });
    };
    if total < before.total {
        return Some(Best { at, total });
    }
    best
}
