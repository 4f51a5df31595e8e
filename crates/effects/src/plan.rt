// What the effect list of a node is made of, by its kind, its facts, the settings and the places that count as yes.
ghost use Rattle.std.specs.Prelude.{◌≡◌, true};
ghost use Rattle.fields.specs.Record.{head, node};
ghost use Rattle.readings.specs.Given.{given};
ghost use Rattle.readings.specs.View.{tree};
ghost use Rattle.effects.specs.Plan.{is_passed, plan};
ghost use Rattle.effects.specs.Passed.{passed_itself};

use fields::{Kind, Record};
use readings::{Node, Settings};

#[derive(Clone, Copy)]
pub enum Plan {
    Nothing,
    // the children, and then itself where the value says so
    Children(bool),
    // each child followed by its coercion
    Coerced,
    // the children but the first
    Arguments,
    // the first child
    Test,
    // the first child, and then the second where the value says so, or the third
    Arm(bool),
    Addition,
    Class,
}

// The plan of a node that is not passed.
#[tactic(auto, unfolding(crate::specs::Plan::plan, rules::specs::Handler::handler, readings::specs::At::tree_at))]
pub fn plan_of(node: Node, settings: Settings) -> Plan
    ensures { result ≡ plan (given settings.entry) (tree node.entry) }
{
    match Kind::try_from(node.record.kind()) {
        Ok(Kind::Spread) => Plan::Children(node.is_flagged()),
        Ok(Kind::Template) => Plan::Coerced,
        Ok(Kind::Unary) => match node.record.sub() {
            1 | 2 => Plan::Children(false),
            3 if node.of_identifier() => Plan::Nothing,
            3 => Plan::Children(false),
            _ => Plan::Children(node.is_flagged()),
        },
        Ok(Kind::Binary) => match node.record.sub() {
            1 => Plan::Children(false),
            2 => Plan::Addition,
            _ => Plan::Children(node.is_flagged()),
        },
        Ok(Kind::Call) if node.pure_call(settings) => Plan::Arguments,
        Ok(Kind::New) if node.pure_new(settings) => Plan::Arguments,
        Ok(Kind::Call | Kind::New) => Plan::Children(node.is_flagged()),
        Ok(Kind::Class) => Plan::Class,
        // "its right side running on yes for and, on no for or"
        Ok(Kind::Logical) if node.test_is_yes(settings) == (node.record.sub() == 1) => {
            Plan::Children(false)
        }
        Ok(Kind::Logical) => Plan::Test,
        Ok(Kind::Conditional) => Plan::Arm(node.test_is_yes(settings)),
        _ => Plan::Children(false),
    }
}

// A bit for each kind whose own entry, if there is one, comes before what is listed under it: leaves, this, elision, array, object,
// property and sequence. Such a node is passed: the walk goes on with the next record, its first child if it has any.
const PASSED: usize = 0b10_1101_1111_1110;

// Of these, what is listed itself where it is flagged, and where the setting says so.
const LEAVES: usize = 0b11_1110;

const THIS: usize = 0b100_0000;

pub fn is_passed(root: Record) -> bool
    ensures { result ≡ is_passed (head root.entry).kind }
{
    let kind = root.kind();
    if 31 < kind {
        return false;
    }
    (PASSED >> kind) % 2 == 1
}

// Whether a node that is passed is listed itself. By numbers rather than a test by kind, which would often be mispredicted.
pub fn passed_itself(root: Record, settings: Settings) -> bool
    requires { is_passed (head root).kind ≡ true }
    ensures { result ≡ passed_itself (given settings.entry) (node root.entry) }
{
    let flagged = if readings::flagged(root) { LEAVES } else { 0 };
    let kinds = if settings.derived() {
        flagged + THIS
    } else {
        flagged
    };
    (kinds >> root.kind()) % 2 == 1
}
