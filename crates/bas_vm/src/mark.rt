ghost use Rattle.std.specs.Prelude.{◌≡◌, suc};
ghost use Rattle.bas_vm.specs.Rows.{Marks, goes_to};

use crate::turn::{Step, Turn};

/// Takes one of the lines left.
pub fn mark(left: &mut u64) -> Step
    ensures leads { Marks left.old left.new result }
    ensures takes { result ≡ Step.Onward → left.old ≡ suc left.new }
    ensures near { goes_to result ≡ None }
{
    if *left == 0 {
        return Step::Ends(Turn::LinesSpent);
    }
    *left -= 1;
    Step::Onward
}
