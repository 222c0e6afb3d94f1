// The constant of a form that is being made.
ghost use Rattle.std.specs.Prelude.{◌≡◌};
ghost use Rattle.made.specs.Made.{with_constant};
ghost use Rattle.arith.specs.Width.{mod_add};

use made::Made;

// Adds x to the constant beside the table.
pub fn add_constant(made: &mut Made, x: u64, w: u32)
    ensures { made.new
        ≡ with_constant made.old (mod_add made.old.constant x w) }
{
    made.constant = arith::mod_add(made.constant, x, w);
}
