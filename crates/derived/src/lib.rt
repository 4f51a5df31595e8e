// The Derived question: does `this`, where it is used, belong to the constructor of a derived class?
// Only there does reading it before `super()` throw, so only there must it be kept.
#![tactic(auto)]

mod ancestor;
mod scope;

ghost use Rattle.std.specs.Prelude.{◌≡◌, if◌then◌else◌};
ghost use Rattle.refusal.specs.declared.Refusal.{Refusal};
ghost use Rattle.derived.specs.Bytes.{any_over};
ghost use Rattle.derived.specs.Scopes.{this_scope_is_constructor};
ghost use Rattle.derived.specs.Ancestors.{constructor_class_has_heritage};
ghost use Rattle.derived.specs.Answer.{stated, derived_question};

use ancestor::Ancestor;
use refusal::Refusal;
use scope::Scope;

// Both lists run innermost first. Each is tested whole before any answer, also where the scopes alone decide.
pub fn derived_constructor_this_scope(scopes: &[u8], ancestors: &[u8]) -> Result<bool, Refusal>
    ensures { stated result ≡ derived_question scopes.now ancestors.now }
{
    test_scopes(scopes)?;
    test_ancestors(ancestors)?;
    Ok(this_scope_is_constructor(scopes) && constructor_class_has_heritage(ancestors))
}

fn test_scopes(scopes: &[u8]) -> Result<(), Refusal>
    ensures { result ≡ (if any_over 7 scopes.now then Err Refusal.Scope else Ok tt) }
{
    for &byte in scopes {
        Scope::try_from(byte)?;
    }
    Ok(())
}

fn test_ancestors(ancestors: &[u8]) -> Result<(), Refusal>
    ensures { result ≡ (if any_over 4 ancestors.now then Err Refusal.Ancestor else Ok tt) }
{
    for &byte in ancestors {
        Ancestor::try_from(byte)?;
    }
    Ok(())
}

// Whether the innermost scope with a `this` of its own is a constructor.
fn this_scope_is_constructor(scopes: &[u8]) -> bool
    ensures { result ≡ this_scope_is_constructor scopes.now }
{
    for &byte in scopes {
        let scope = Scope::decode(byte);
        if !scope.is_skipped() {
            return scope.is_constructor;
        }
    }
    false
}

// Whether the class that contains the constructor extends another. The nearest class need not be that one:
// computed keys and decorators of a nested class still use the outer `this`.
fn constructor_class_has_heritage(ancestors: &[u8]) -> bool
    ensures { result ≡ constructor_class_has_heritage ancestors.now }
{
    let mut found_constructor_method = false;
    for &byte in ancestors {
        match Ancestor::decode(byte) {
            // A field or accessor value has its own `this`, though it makes no function scope.
            Ancestor::FieldOrAccessorValue => return false,
            Ancestor::ConstructorMethod => found_constructor_method = true,
            Ancestor::ClassBody { has_heritage } if found_constructor_method => {
                return has_heritage;
            }
            Ancestor::ClassBody { .. } | Ancestor::Other => {}
        }
    }
    false
}
