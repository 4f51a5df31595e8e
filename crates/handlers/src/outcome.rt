// What becomes of a node; as definitions: specs/Outcome.antt.
ghost use Rattle.std.specs.Prelude.{◌≡◌};
ghost use Rattle.handlers.specs.Choice.{stays_if};

// What is made of the list of what is left of a node's children.
#[derive(Clone, Copy)]
pub enum Rewrite {
    Sequence,
    Array,
    Template,
    Object,
    Comparison,
}

#[derive(Clone, Copy)]
pub enum Outcome {
    Removable,
    Unchanged,
    // what is left of its children takes its place (`unwrap_unary`)
    Unwrapped,
    Rewritten(Rewrite),
    // of a pure call or new (`fold_arguments_into_needed_expressions`)
    Arguments,
    // of a flagged addition
    Addition,
    // of a class that is not kept
    Class,
    // of a flagged conditional
    Conditional,
}

impl Outcome {
    pub fn stays_if(when: bool) -> Self
        ensures { result ≡ stays_if when }
    {
        if when {
            Outcome::Unchanged
        } else {
            Outcome::Removable
        }
    }
}
