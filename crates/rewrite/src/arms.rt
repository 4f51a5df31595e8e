// The arms of a conditional.
ghost use Rattle.rewrite.specs.Arms.{GivenArms, JoinsArms};

use fields::Record;

// "sub 1 for and, 2 for or"
const AND: u8 = 1;

const OR: u8 = 2;

// Behind the free record at pos stand the test, up to record arms, and what is left of the consequent, up to record middle, and of the
// alternate, up to record end; one of the two is left at least. "a dropped consequent gives or, a dropped alternate and. Neither gone
// keeps the conditional".
pub fn join_arms(
    node: Record,
    out: &mut [u8],
    pos: usize,
    arms: usize,
    middle: usize,
    end: usize,
) -> usize
    requires { GivenArms node out.old pos arms middle end }
    ensures { JoinsArms node.entry out.old out.new pos arms middle end result }
{
    if middle == arms {
        crate::made::make_logical(out, pos, end, OR, node.place());
        return end;
    }
    if end == middle {
        crate::made::make_logical(out, pos, end, AND, node.place());
        return end;
    }
    crate::close::stays_with(node, out, pos, end)
}
