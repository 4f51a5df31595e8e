// The words of a tree file that is accepted, so the last arm for the subs of a kind stands for the one that is left.
use crate::out::Out;
use fields::Kind;

pub fn word(kind: Kind) -> &'static str {
    match kind {
        Kind::Literal => "string",
        Kind::Identifier => "identifier",
        Kind::Function => "function",
        Kind::Arrow => "arrow",
        Kind::OtherLeaf => "other",
        Kind::This => "this",
        Kind::Array => "array",
        Kind::Elision => "elision",
        Kind::Spread => "spread",
        Kind::Object => "object",
        Kind::Property => "property",
        Kind::Template => "template",
        Kind::Sequence => "sequence",
        Kind::Unary => "unary",
        Kind::Binary => "binary",
        Kind::Call => "call",
        Kind::New => "new",
        Kind::Class => "class",
        Kind::Element => "element",
        Kind::Logical => "logical",
        Kind::Conditional => "conditional",
        Kind::Assignment => "assignment",
    }
}

// Of kinds whose sub has a form, which its lowest three bits say.
fn form(kind: Kind, sub: u8) -> &'static str {
    match (kind, sub % 8) {
        (Kind::Unary, 1) => " void",
        (Kind::Unary, 2) => " not",
        (Kind::Unary, 3) => " typeof",
        (Kind::Unary, _) => " other",
        (Kind::Binary, 1) => " comparison",
        (Kind::Binary, 2) => " addition",
        (Kind::Binary, _) => " other",
        (Kind::Element, 1) => " method",
        (Kind::Element, 2) => " property",
        (Kind::Element, 3) => " accessor",
        (Kind::Element, 4) => " block",
        (Kind::Element, _) => " index-signature",
        (Kind::Logical, 1) => " and",
        (Kind::Logical, _) => " or",
        _ => "",
    }
}

// What a sub says, by its form and by single bits.
pub fn put_sub(kind: Kind, sub: u8, out: &mut Out<'_>) {
    out.put(form(kind, sub));
    match kind {
        Kind::Property => out.put_flags(sub, &[" key"]),
        Kind::Class => out.put_flags(sub, &[" decorated", " heritage"]),
        Kind::Element => out.put_flags(
            sub / 8,
            &[" static", " computed", " decorated", " value", " nonempty"],
        ),
        _ => {}
    }
}

pub const SETTINGS: [&str; 3] = [" annotations", " tree-shake-only", " derived"];

// Of a pair no is the lower bit and yes the upper, and a file with both is refused.
pub const FACTS: [&str; 8] = [
    " effect",
    " symbol-no",
    " symbol-yes",
    " string-no",
    " string-yes",
    " annotated",
    " listed",
    " summary-free",
];
