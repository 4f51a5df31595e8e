// A list that stands behind a free record: none, one or several trees left.
ghost use Rattle.rules.specs.Reduce.{stays_with};
ghost use Rattle.rewrite.specs.Becomes.{GivenList, Becomes, list_of, none_one_several_of, sequence_if_any_of, array_of};

use fields::Record;

// None leaves nothing, and several a sequence at the place of the node. One is itself where `alone` says so.
fn close_list(node: Record, out: &mut [u8], pos: usize, end: usize, alone: bool) -> usize
    requires { GivenList node out.old pos end }
    ensures { Becomes (list_of alone) node.entry out.old out.new pos end result }
{
    let first = pos + 1;
    if end == first {
        return pos;
    }
    let size = Record {
        src: out,
        at: first,
    }
    .subtree();
    let one = if alone { size } else { 0 };
    if first + one == end {
        output::move_down(out, pos, one);
        return end - 1;
    }
    crate::made::make_sequence(out, pos, end, node.place());
    end
}

// "None: removable; one: itself; else a sequence".
pub fn none_one_several(node: Record, out: &mut [u8], pos: usize, end: usize) -> usize
    requires { GivenList node out.old pos end }
    ensures { Becomes none_one_several_of node.entry out.old out.new pos end result }
{
    close_list(node, out, pos, end, true)
}

// Of a class: "None: removable. One or more: always a sequence."
pub fn sequence_if_any(node: Record, out: &mut [u8], pos: usize, end: usize) -> usize
    requires { GivenList node out.old pos end }
    ensures { Becomes sequence_if_any_of node.entry out.old out.new pos end result }
{
    close_list(node, out, pos, end, false)
}

// The node over what is left of its children; "none is removable".
pub fn stays_with(node: Record, out: &mut [u8], pos: usize, end: usize) -> usize
    requires { GivenList node out.old pos end }
    ensures { Becomes stays_with node.entry out.old out.new pos end result }
{
    let first = pos + 1;
    if end == first {
        return pos;
    }
    let n = output::count_trees(out, first, end);
    let counts = output::Counts {
        children: n as u16,
        records: (end - pos) as u16,
    };
    output::keep_at(node, out, pos, counts);
    end
}

// "One left stays a sequence of one; none is removable."
pub fn remove_unused_sequence_expr(node: Record, out: &mut [u8], pos: usize, end: usize) -> usize
    requires { GivenList node out.old pos end }
    ensures { Becomes stays_with node.entry out.old out.new pos end result }
{
    stays_with(node, out, pos, end)
}

// "None left: removable. A spread left: stays an array. Else the one child, or a sequence at the array's place."
pub fn remove_unused_array_expr(node: Record, out: &mut [u8], pos: usize, end: usize) -> usize
    requires { GivenList node out.old pos end }
    ensures { Becomes array_of node.entry out.old out.new pos end result }
{
    if output::any_spread(out, pos + 1, end) {
        return stays_with(node, out, pos, end);
    }
    none_one_several(node, out, pos, end)
}
