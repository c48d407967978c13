// The class of a net.
ghost use Rattle.std.specs.Prelude.{◌≡◌, ◌≤◌, nat_abs};
ghost use Rattle.weight.specs.Weight.{largest_weight};
ghost use Rattle.part.specs.Class.{last_class, class_of};

use weight::size;

// Classes 0 to 20; 10 lies about the target, 0 and 20 have no lower and no upper end.
pub const CLASSES: usize = 21;

// Classes 1 to 19 are so many divisions wide.
const WIDTH: u64 = 11;

// The class that holds a net, which is in divisions like the target. Whole widths are counted from 115 below the target, where
// class 0 would begin if it were as wide as the others: so no quotient is of a negative number.
pub(crate) fn class_of(net: i64, target: i64) -> usize
    requires { (nat_abs net ≤ largest_weight) × (nat_abs target ≤ largest_weight) }
    ensures { (result ≡ class_of net target) × (result ≤ last_class) }
{
    let above = net - target + 115;
    if above < 0 {
        return 0;
    }
    (size(above) / WIDTH).min(20) as usize
}
