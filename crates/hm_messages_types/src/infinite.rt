//! Types that are equal only if a type contains itself (the occurs check).
ghost use Rattle.std.specs.Prelude.{◌≡◌, true};
ghost use Rattle.hm_types.specs.Monotypes.{arguments_of};
ghost use Rattle.hm_types.specs.Shape.{type_of, types_of};
ghost use Rattle.hm_messages_types.specs.InfiniteTypes.{NeedInfinite, SomeNeedInfinite};

use hm_types::{Head, Ty};

/// Returns whether a type constructor has a name, as `Maybe`.
fn is_named(head: &Head) -> bool {
    match head {
        Head::Named(_) => true,
        Head::Arrow => false,
        Head::List => false,
        Head::Unit => false,
        Head::Tuple(_) => false,
    }
}

// Why: docs/DECISIONS.md, "Infinite types".
/// Returns whether two types are found to be equal only if a function, a list or a tuple contains itself.
#[cycle(infinite)]
pub fn need_infinite(left: &Ty, right: &Ty) -> bool
    ensures { result ≡ true → NeedInfinite (type_of left.now) (type_of right.now) }
{
    match (left, right) {
        (Ty::Var(variable), Ty::App(head, _)) => !is_named(head) && right.contains(*variable),
        (Ty::App(head, _), Ty::Var(variable)) => !is_named(head) && left.contains(*variable),
        (Ty::App(head, arguments), Ty::App(other, others)) => {
            head.is_same(other) && some_need_infinite(arguments.as_slice(), others.as_slice())
        }
        _ => false,
    }
}

/// Returns whether two types at one place of these lists are found to be equal only if a function, a list or a tuple contains itself.
#[cycle(infinite)]
fn some_need_infinite(lefts: &[Ty], rights: &[Ty]) -> bool
    ensures { result ≡ true → SomeNeedInfinite (arguments_of (types_of lefts.now)) (arguments_of (types_of rights.now)) }
{
    if lefts.len() != rights.len() {
        return false;
    }
    for i in 0..lefts.len() {
        if need_infinite(&lefts[i], &rights[i]) {
            return true;
        }
    }
    false
}
