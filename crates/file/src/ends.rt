// Refusal 17: an end before its start.
ghost use Rattle.std.specs.Prelude.{◌≡◌, ◌≤◌, length};
ghost use Rattle.tree.specs.Below.{all_below};
ghost use Rattle.tree.specs.Layout.{header_bytes};
ghost use Rattle.tree.specs.Room.{records_in};
ghost use Rattle.tree.specs.Fields.{head_at};
ghost use Rattle.tree.specs.Record.{end_ok};

use fields::Record;

// Whether no end of the first n records lies before its start. Records of version 1 have none, and are not looked at.
#[tactic(auto, using(std::proofs::lemmas::Bool::Decides::nat_tests, tree::specs::Below::all_none, tree::specs::Below::all_more), unfolding(tree::specs::Record::end_ok))]
pub fn ends_ok(src: &[u8], n: usize) -> bool
    requires { (header_bytes ≤ length src.now) × (n ≤ records_in src.now) }
    ensures { result ≡ all_below (λ i. end_ok (head_at src.now i).place) n }
{
    if !fields::has_ends(src) {
        return true;
    }
    for at in 0..n {
        let place = Record { src, at }.place();
        if place.end < place.start {
            return false;
        }
    }
    true
}
