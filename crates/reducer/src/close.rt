// The end of a list whose trees may wait: "the rest wait until the end", and then make a node at their parent's place.
ghost use Rattle.fields.specs.Record.{head};
ghost use Rattle.rules.specs.Made.{make_template, make_object};
ghost use Rattle.reducer.specs.Close.{GivenWalked, Closes};

use fields::Record;
use rewrite::Waiting;

pub fn close_template(node: Record, out: &mut [u8], pos: usize, waiting: Waiting) -> usize
    requires { GivenWalked node out.old pos waiting }
    ensures { Closes make_template (head node.entry).place out.old out.new pos waiting result }
{
    rewrite::flush_template(out, waiting, node.place());
    rewrite::none_one_several(node, out, pos, waiting.next)
}

pub fn close_object(node: Record, out: &mut [u8], pos: usize, waiting: Waiting) -> usize
    requires { GivenWalked node out.old pos waiting }
    ensures { Closes make_object (head node.entry).place out.old out.new pos waiting result }
{
    rewrite::flush_object(out, waiting, node.place());
    rewrite::none_one_several(node, out, pos, waiting.next)
}
