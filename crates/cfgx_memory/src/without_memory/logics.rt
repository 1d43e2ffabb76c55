//! The operations of the logics.
use cfg_expr::expr::Logic;
use cfg_expr::expr::logic::Kleene64;

// Returns whether `top` and `bottom` of a logic are joined and negated as true and false are.
fn is_two_valued<T: Logic + Copy + PartialEq>() -> bool {
    let (yes, no) = (T::top(), T::bottom());
    let found = [yes.and(yes), yes.and(no), no.or(no), no.or(yes)];
    yes.not() == no && no.not() == yes && found.as_slice() == [yes, no, no, yes].as_slice()
}

// Returns whether a logic is that of Kleene, and its third value is `unknown`.
fn is_three_valued<T: Logic + Copy + PartialEq>(unknown: T) -> bool {
    let (yes, no) = (T::top(), T::bottom());
    let found = [
        unknown.not(),
        unknown.and(yes),
        unknown.and(no),
        unknown.or(yes),
        unknown.or(no),
    ];
    let wanted = [unknown, unknown, no, yes, unknown];
    is_two_valued::<T>() && found.as_slice() == wanted.as_slice()
}

/// Returns whether the operations of the logic with the name `name` give the right values.
pub(super) fn logic_is_right(name: &str) -> bool {
    match name {
        "bool" => is_two_valued::<bool>(),
        "option" => is_three_valued::<Option<bool>>(None),
        "lanes" => is_three_valued(Kleene64::new(0, 0)),
        _ => false,
    }
}
