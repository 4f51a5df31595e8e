// Both sides of a comparison.
ghost use Rattle.fields.specs.Place.{said_in};
ghost use Rattle.rewrite.specs.Becomes.{GivenList, Becomes, join_kept_of};
ghost use Rattle.rewrite.specs.Join.{GivenPair, Joins};

use fields::{Kind, Place, Record};

// Two trees, behind record pos and at record second: "if a is a sequence, b is appended whole, even a sequence; else a sequence b
// gets a in front; else the two make a sequence".
fn join_sequence(out: &mut [u8], pos: usize, second: usize, end: usize, place: Place) -> usize
    requires { GivenPair out.old pos second end }
    ensures { Joins out.old out.new pos second end (said_in out.old place) result }
{
    let first = pos + 1;
    let left = Record {
        src: out,
        at: first,
    };
    if left.is_kind(Kind::Sequence) {
        output::move_down(out, first, end - first - 1);
        crate::made::make_sequence(out, pos, end - 1, place);
        return end - 1;
    }
    let right = Record {
        src: out,
        at: second,
    };
    if right.is_kind(Kind::Sequence) {
        output::move_down(out, second, end - second - 1);
        crate::made::make_sequence(out, pos, end - 1, place);
        return end - 1;
    }
    crate::made::make_sequence(out, pos, end, place);
    end
}

// "two kept go to `join_sequence`"
pub fn join_kept(node: Record, out: &mut [u8], pos: usize, end: usize) -> usize
    requires { GivenList node out.old pos end }
    ensures { Becomes join_kept_of node.entry out.old out.new pos end result }
{
    let first = pos + 1;
    if end == first {
        return pos;
    }
    let left = Record {
        src: out,
        at: first,
    };
    let second = first + left.subtree();
    if second == end {
        return crate::close::none_one_several(node, out, pos, end);
    }
    let right = Record {
        src: out,
        at: second,
    };
    if second + right.subtree() == end {
        return join_sequence(out, pos, second, end, node.place());
    }
    crate::close::none_one_several(node, out, pos, end)
}
