//! Many facts. If each answer went through all facts, or through those that somebody chose so that
//! they collide in a table whose hash is known, the rows would take minutes.
ghost use Rattle.std.specs.Prelude.{◌<◌};

use cfg_expr::Predicate;
use cfgx_engine::resolve::{Facts, Otherwise, audit_facts};
use cfgx_testing::checking::push_ok;
use std::alloc::{AllocError, Global};

/// Numbers of flags, each of which is a fact.
pub(crate) const FOUND: &str = r#"
0
1
2
80000
"#;

/// Rows of how many facts collide, and how many of them each target has.
pub(crate) const COLLIDING: &str = r#"
80000 | 80000
80000 | 1000
"#;

// Returns `count` names, which are not in the order of their bytes.
fn names(alloc: Global, letter: char, count: usize) -> Result<Vec<String>, AllocError> {
    let mut names = Vec::new(alloc);
    for number in 0..count {
        push_ok(&mut names, format!(in alloc; "{letter}{number}"))?;
    }
    Ok(names)
}

// Returns the texts of the names.
fn texts(alloc: Global, names: &[String]) -> Result<Vec<&str>, AllocError> {
    let mut texts = Vec::new(alloc);
    for name in names {
        texts.push(name.as_str())?;
    }
    Ok(texts)
}

// Returns whether the answer to each of the flags is `wanted`.
fn answers_are(facts: &Facts, names: &[String], wanted: Option<bool>) -> bool {
    for name in names {
        if facts.answer(&Predicate::Flag(name.as_str()), Otherwise::Unknown) != wanted {
            return false;
        }
    }
    true
}

// Returns whether facts of the flags `k0`, `k1`, and so on name each of these, and no other.
fn each_is_found(alloc: Global, count: usize) -> Option<bool> {
    let (named, others) = (
        names(alloc, 'k', count).ok()?,
        names(alloc, 'j', count).ok()?,
    );
    let texts = texts(alloc, named.as_slice()).ok()?;
    let facts = Facts::from_flags(alloc, texts.as_slice()).ok()?;
    Some(
        answers_are(&facts, named.as_slice(), Some(true))
            && answers_are(&facts, others.as_slice(), None),
    )
}

/// Returns whether facts of as many flags as the row says name each of these, and no other.
pub(crate) fn finds_each(alloc: Global, row: &[String]) -> bool {
    match row {
        [count] => match count.as_str().parse::<usize>() {
            Ok(count) => each_is_found(alloc, count) == Some(true),
            Err(_) => false,
        },
        _ => false,
    }
}

// Returns values of features that collide in a table of `std`'s `FoldHasher`, in an order of bytes.
fn colliding_values(alloc: Global, count: usize) -> Result<Vec<String>, AllocError> {
    let mut values = Vec::new(alloc);
    for number in 0..count {
        let value = format!(in alloc; "kxdxw2p8tf2wmki2VgO?ZL4Q{number:08}tailtailtailtail");
        push_ok(&mut values, value)?;
    }
    Ok(values)
}

// Returns the conditions that ask for these features.
fn conditions(alloc: Global, values: &[String]) -> Result<Vec<String>, AllocError> {
    let mut conditions = Vec::new(alloc);
    for value in values {
        push_ok(&mut conditions, format!(in alloc; "feature = \"{value}\""))?;
    }
    Ok(conditions)
}

// Returns targets that have `each` of the facts in turn.
fn targets_of(alloc: Global, facts: &[&str], each: usize) -> Option<Vec<Facts>>
    requires { 0 < each }
{
    let mut targets = Vec::new(alloc);
    for lines in facts.chunks(each) {
        let facts = Facts::from_rustc(alloc, lines).ok()?;
        targets.push(facts).ok()?;
    }
    Some(targets)
}

// Returns whether the answer to each of the features is true.
fn features_are_found(facts: &Facts, values: &[String]) -> bool {
    for value in values {
        let asked = Predicate::Feature(value.as_str());
        if facts.answer(&asked, Otherwise::Unknown) != Some(true) {
            return false;
        }
    }
    true
}

// Returns whether condition `i` is true on target `i`, and unknown on every other one.
fn are_true_on_own(values: &[Option<bool>], targets: usize) -> bool {
    if targets == 0 {
        return values.is_empty();
    }
    for (place, value) in values.iter().enumerate() {
        let is_own = place / targets == place % targets;
        if *value != is_own.then_some(true) {
            return false;
        }
    }
    values.len() / targets == targets
}

// Returns whether an audit of the first fact of each target finds it on this target alone.
fn audit_finds(alloc: Global, facts: &[&str], each: usize) -> Option<bool>
    requires { 0 < each }
{
    let targets = targets_of(alloc, facts, each)?;
    let mut asked = Vec::new(alloc);
    for lines in facts.chunks(each) {
        asked.push(*lines.first()?).ok()?;
    }
    let values = audit_facts(
        alloc,
        asked.as_slice(),
        targets.as_slice(),
        Otherwise::Unknown,
    )
    .ok()?;
    Some(are_true_on_own(values.as_slice(), targets.len()))
}

// Returns whether facts that collide answer, and an audit of targets finds them.
fn collide(alloc: Global, count: usize, each: usize) -> Option<bool>
    requires { 0 < each }
{
    let values = colliding_values(alloc, count).ok()?;
    let conditions = conditions(alloc, values.as_slice()).ok()?;
    let facts = texts(alloc, conditions.as_slice()).ok()?;
    let all = Facts::from_rustc(alloc, facts.as_slice()).ok()?;
    Some(features_are_found(&all, values.as_slice()) && audit_finds(alloc, facts.as_slice(), each)?)
}

/// Returns whether as many facts as the row says answer although they collide, and are found by an
/// audit of targets that have as many of them each as the row says.
pub(crate) fn finds_colliding(alloc: Global, row: &[String]) -> bool {
    match row {
        [count, each] => match (
            count.as_str().parse::<usize>(),
            each.as_str().parse::<usize>(),
        ) {
            (Ok(count), Ok(each)) => each > 0 && collide(alloc, count, each) == Some(true),
            _ => false,
        },
        _ => false,
    }
}
