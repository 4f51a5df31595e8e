// A record of a tree file: its fields, and what it alone says of its node.
ghost use Rattle.std.specs.Prelude.{◌+◌, ◌≤◌};
ghost use Rattle.tree.specs.Room.{records_in};

use crate::{Kind, Place, offset};

// Record `at` of src. All its fields are there.
#[derive(Clone, Copy)]
pub struct Record<'a> {
    pub src: &'a [u8],
    pub at: usize,
    pub ghost inside: { at + 1 ≤ records_in src.now },
}

impl Record<'_> {
    ghost use Rattle.std.specs.Prelude.{◌≡◌, ◌<◌, eqb, length};
    ghost use Rattle.le.specs.Le.{u32_at};
    ghost use Rattle.tree.specs.Offset as offset;
    ghost use Rattle.tree.specs.Layout.{v2, version_in, start_in};
    ghost use Rattle.tree.specs.Fields.{children_at, subtree_at};
    ghost use Rattle.tree.specs.Record.{never_symbol_alone};
    ghost use Rattle.tree.specs.Symbol.{is_addition, string_fact};
    ghost use Rattle.fields.specs.Kind.{number_of};
    ghost use Rattle.fields.specs.Place.{as_place};
    ghost use Rattle.fields.specs.Record.{head, node};

    // Where the record starts, which is where a file of the records before it ends.
    #[tactic(auto, using(tree::specs::Room::record_inside, tree::specs::Room::fields_within))]
    pub fn start(self) -> usize
        ensures { (result ≡ start_in self.entry.src.now self.entry.at) × (result + offset.end ≤ length self.entry.src.now) }
    {
        crate::file_length(self.src, self.at)
    }

    pub fn kind(self) -> u8
        ensures { result ≡ (head self.entry).kind }
    {
        self.src[self.start() + offset::KIND]
    }

    pub fn is_kind(self, kind: Kind) -> bool
        ensures { result ≡ eqb (head self.entry).kind (number_of kind) }
    {
        self.kind() == u8::from(kind)
    }

    pub fn facts(self) -> u8
        ensures { result ≡ (head self.entry).facts }
    {
        self.src[self.start() + offset::FACTS]
    }

    pub fn sub(self) -> u8
        ensures { result ≡ (head self.entry).sub }
    {
        self.src[self.start() + offset::SUB]
    }

    pub fn reserved(self) -> u8
        ensures { result ≡ (head self.entry).reserved }
    {
        self.src[self.start() + offset::RESERVED]
    }

    pub fn children(self) -> usize
        ensures { (result ≡ children_at self.entry.src.now self.entry.at) × (result < 65536) }
    {
        usize::from(le::get16(self.src, self.start() + offset::CHILDREN))
    }

    pub fn subtree(self) -> usize
        ensures { (result ≡ subtree_at self.entry.src.now self.entry.at) × (result < 65536) }
    {
        usize::from(le::get16(self.src, self.start() + offset::SUBTREE))
    }

    pub fn text(self) -> u32
        ensures { result ≡ (head self.entry).text }
    {
        le::get32(self.src, self.start() + offset::TEXT)
    }

    // In version 1 no end is said, and it is taken to be the start.
    #[tactic(auto, unfolding(tree::specs::Fields::place_in))]
    pub fn place(self) -> Place
        ensures { as_place result ≡ (head self.entry).place }
    {
        let start = le::get32(self.src, self.start() + offset::PLACE);
        let end = if crate::has_ends(self.src) {
            self.end()
        } else {
            start
        };
        Place { start, end }
    }

    // "the last four" bytes of a record of version 2.
    #[tactic(auto, using(tree::specs::Room::end_inside))]
    fn end(self) -> u32
        requires { version_in self.src.now ≡ v2 }
        ensures { result ≡ u32_at self.entry.src.now (start_in self.entry.src.now self.entry.at + offset.end) }
    {
        le::get32(self.src, self.start() + offset::END)
    }

    #[tactic(auto, using(std::proofs::lemmas::Bool::Decides::nat_tests), unfolding(tree::specs::Symbol::is_addition))]
    pub fn is_addition(self) -> bool
        ensures { result ≡ is_addition (node self.entry) }
    {
        self.is_kind(Kind::Binary) && self.sub() == 2
    }

    #[tactic(auto, unfolding(tree::specs::Symbol::string_fact))]
    pub fn has_string_fact(self) -> bool
        ensures { result ≡ string_fact (node self.entry) }
    {
        self.facts() / 8 % 4 == 2
    }

    #[tactic(auto, using(std::proofs::lemmas::Bool::Decides::nat_tests), unfolding(tree::specs::Record::never_symbol_alone, tree::specs::Record::is_void_not_or_typeof, tree::specs::Record::is_comparison))]
    pub fn never_symbol_alone(self) -> bool
        ensures { result ≡ never_symbol_alone (head self.entry) }
    {
        let sub = self.sub();
        self.is_kind(Kind::Unary) && sub <= 3
            || self.is_kind(Kind::Binary) && sub == 1
            || self.is_kind(Kind::Template)
    }
}
