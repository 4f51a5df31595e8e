// Nodes that wait: copied behind a free record that is made when they stop waiting.
ghost use Rattle.std.specs.Prelude.{◌≡◌, ◌+◌, ◌<◌, ◌≤◌};
ghost use Rattle.tree.specs.Layout.{version_in};
ghost use Rattle.tree.specs.Room.{records_in};
ghost use Rattle.fields.specs.Place.{said_in};
ghost use Rattle.rules.specs.Made.{make_template, make_object};
ghost use Rattle.readings.specs.View.{tree};
ghost use Rattle.rewrite.specs.Waiting.{GivenWaiting, HeldRecords, Flushed, WrappedRecords};

use fields::{Kind, Place, Record};
use output::{Counts, MadeHead};
use readings::Node;

// The trees that wait stand behind the free record slot, up to record next, which is slot if there are none.
#[derive(Clone, Copy)]
pub struct Waiting {
    pub slot: usize,
    pub next: usize,
}

impl Waiting {
    ghost use Rattle.rewrite.specs.Waiting.{none_at};

    // None wait.
    pub fn none(pos: usize) -> Self
        ensures { result ≡ none_at pos }
    {
        Waiting {
            slot: pos,
            next: pos,
        }
    }
}

// The tree at record at, of size records, waits too.
pub fn hold(src: &[u8], at: usize, size: usize, out: &mut [u8], waiting: Waiting) -> Waiting
    requires { (at + size ≤ records_in src.now) × (waiting.next + 1 + size ≤ records_in out.old) × (version_in out.old ≡ version_in src.now) }
    ensures { HeldRecords src.now at size out.old out.new waiting result }
{
    let Waiting { slot, next } = waiting;
    let pos = if slot == next { next + 1 } else { next };
    let next = output::copy_tree(src, at, size, out, pos);
    Waiting { slot, next }
}

// "all waiting make a template with text 0", its flag set "on every made template"
pub fn flush_template(out: &mut [u8], waiting: Waiting, place: Place)
    requires { GivenWaiting out.old waiting }
    ensures { Flushed make_template out.old out.new waiting (said_in out.old place) }
{
    let Waiting { slot, next } = waiting;
    if slot < next {
        let template = MadeHead {
            kind: u8::from(Kind::Template),
            sub: 0,
            facts: 1,
            place,
        };
        crate::made::make_over(out, slot, next, template);
    }
}

// "the next property makes them an object"
pub fn flush_object(out: &mut [u8], waiting: Waiting, place: Place)
    requires { GivenWaiting out.old waiting }
    ensures { Flushed make_object out.old out.new waiting (said_in out.old place) }
{
    let Waiting { slot, next } = waiting;
    if slot < next {
        crate::made::make_flagged(out, slot, next, u8::from(Kind::Object), 0, place);
    }
}

// "a spread first wrapped in an array at the spread's place": one that is flagged stays in it, and another goes.
// The spread takes size records.
pub fn wrap_spread(node: Node, size: usize, out: &mut [u8], pos: usize) -> usize
    requires { (node.record.at + size ≤ records_in node.record.src.now) × (pos + 1 + size ≤ records_in out.old) × (version_in out.old ≡ version_in node.record.src.now) × (size < 65535) }
    ensures { WrappedRecords (tree node.entry) size out.old out.new pos result }
{
    if node.is_flagged() {
        let Record { src, at } = node.record;
        let next = output::copy_tree(src, at, size, out, pos + 1);
        let array = MadeHead {
            kind: u8::from(Kind::Array),
            sub: 0,
            facts: 1,
            place: node.record.place(),
        };
        let counts = Counts {
            children: 1,
            records: (size + 1) as u16,
        };
        output::make_at(out, pos, array, counts);
        return next;
    }
    pos
}
