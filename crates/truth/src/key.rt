// The key by which a tree without literal and Shr, with at most five variables, is shared: its
// truth table and its variables.
ghost use Rattle.std.specs.Prelude.{◌≡◌, true};
ghost use Rattle.record.specs.Span.{sized};
ghost use Rattle.record.specs.Decode.{decode};
ghost use Rattle.truth.specs.Key.{key_of};

// The first word of the key of a tree that is not shared by its table: no table has this number.
pub const NOT_PURE: u64 = u64::MAX;

// The key of the tree of t. Seven words, as the definition has them: keys are compared as lists of words.
pub fn key_of(t: &[u8]) -> [u64; 7]
    requires { sized t.now ≡ true }
    ensures { result ≡ key_of (decode t.now) }
{
    let none = [NOT_PURE, 0, 0, 0, 0, 0, 0];
    let found = expr_utils::traits_of(t);
    if found.literal {
        return none;
    }
    if found.shr {
        return none;
    }
    let mut vars = [0u64; 6];
    expr::vars::collect_vars(t, &mut vars);
    let n = crate::place_of(expr::vars::NO_VAR, &vars);
    if 5 < n {
        return none;
    }
    let rows = 1 << n;
    let table = crate::rows_at(t, &vars, 0, 1) & arith::bitmask(rows);
    [table, vars[0], vars[1], vars[2], vars[3], vars[4], vars[5]]
}
