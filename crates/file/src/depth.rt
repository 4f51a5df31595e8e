// Refusal 8: the depth of a tree whose shape has passed.
ghost use Rattle.tree.specs.Walk.{Held};
ghost use Rattle.file.specs.Depth.{Low};

use fields::Record;

// Whether the trees that stand from record at on, in size records, have depth levels at most. It calls itself depth times at most:
// siblings are walked by the loop, a `while` since its step is the size of each.
#[tactic(auto, using(tree::specs::Walk::held_some, tree::specs::Walk::held_children, crate::specs::Depth::low_none))]
pub fn levels_ok(src: &[u8], at: usize, size: usize, depth: usize) -> bool
    requires { Held src.now at size }
    ensures { Low src.now at size depth result }
{
    if depth == 0 {
        return size == 0;
    }
    let end = at + size;
    let mut next = at;
    while next < end {
        let subtree = Record { src, at: next }.subtree();
        // a tree has no more levels than records, so most are not looked into
        if depth < subtree && !levels_ok(src, next + 1, subtree - 1, depth - 1) {
            return false;
        }
        next += subtree;
    }
    true
}
