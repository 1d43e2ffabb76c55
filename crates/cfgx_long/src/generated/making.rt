//! Texts that are made from pseudorandom numbers.
//!
//! A function that owns a text drops or returns it in one place, also if there is an error. The
//! documentation of the crate says why.
use super::numbers::Numbers;
use std::alloc::{AllocError, Global};
use std::mem::replace;

// Tokens. In each of these constants `|` separates the items. An item can be empty, and one that is
// repeated is chosen more often.
const TOKENS: &str = "a|_b1|unix|test|key|all|any|not|feature|target_os|=|(|)|,|\"v\"|\"\"|\"| |\
    \u{3000}|all(|any(|not(|)|)|,|cfg(|8|\u{e9}";

// Conditions with one predicate or none.
const LEAVES: &str = "true|false|a|b|key|unix|windows|test|debug_assertions|proc_macro|\
    feature = \"\"|feature=\"x-y\"|key = \"\u{e9}\n\"|panic = \"abort\"|target_abi = \"sim\"|\
    target_arch = \"x86\"|target_endian = \"big\"|target_env = \"gnu\"|target_family = \"wasm\"|\
    target_feature = \"sse4.2\"|target_has_atomic = \"+08\"|target_has_atomic = \"ptr\"|\
    target_os = \"\"|target_pointer_width = \"064\"|target_vendor = \"apple\"|all()|any()|\
    not(all())";

// The space before the condition inside a function.
const PREFIXES: &str = "| |\n\t|\u{a0}";

// The text after the last member of a function.
const SUFFIXES: &str = "||,| , ,";

// The names and the opening parentheses of functions with any number of members.
const FUNCTIONS: &str = "all(|any(|all (|any\u{3000}(";

// Pushes up to 11 random tokens.
fn push_tokens(numbers: &mut Numbers, text: &mut String) -> Result<(), AllocError> {
    for _token in 0..numbers.below(12) {
        text.push_str(numbers.one_of(TOKENS))?;
    }
    Ok(())
}

// Pushes up to two leaves, each between `before` and `after`.
fn push_leaves(
    numbers: &mut Numbers,
    text: &mut String,
    before: &str,
    after: &str,
) -> Result<(), AllocError> {
    for _leaf in 0..numbers.below(3) {
        text.push_str(before)?;
        text.push_str(numbers.one_of(LEAVES))?;
        text.push_str(after)?;
    }
    Ok(())
}

// Pushes a random prefix and the condition `inner`.
fn push_inner(numbers: &mut Numbers, text: &mut String, inner: &str) -> Result<(), AllocError> {
    text.push_str(numbers.one_of(PREFIXES))?;
    text.push_str(inner)
}

// Pushes `all(` or `any(`, up to two leaves, the condition `inner`, and up to two leaves. Does not
// push the closing parenthesis.
fn push_members(numbers: &mut Numbers, text: &mut String, inner: &str) -> Result<(), AllocError> {
    text.push_str(numbers.one_of(FUNCTIONS))?;
    push_leaves(numbers, text, "", ",")?;
    push_inner(numbers, text, inner)?;
    push_leaves(numbers, text, ", ", "")
}

// Pushes a random function with the condition `inner` as a member. An `all` or `any` can have other
// members.
fn push_function(numbers: &mut Numbers, text: &mut String, inner: &str) -> Result<(), AllocError> {
    if numbers.below(3) > 0 {
        push_members(numbers, text, inner)?;
    } else {
        text.push_str("not(")?;
        push_inner(numbers, text, inner)?;
    }
    text.push_str(numbers.one_of(SUFFIXES))?;
    text.push_str(")")
}

// Wraps the condition `text` in up to five nested functions.
fn wrap_in_functions(
    alloc: Global,
    numbers: &mut Numbers,
    text: &mut String,
) -> Result<(), AllocError> {
    for _function in 0..numbers.below(6) {
        let inner = replace(text, String::new(alloc));
        let pushed = push_function(numbers, text, inner.as_str());
        drop(inner);
        pushed?;
    }
    Ok(())
}

// Returns a random leaf in up to five nested functions.
fn make_condition(alloc: Global, numbers: &mut Numbers) -> Result<String, AllocError> {
    let mut text = String::from_str(alloc, numbers.one_of(LEAVES))?;
    let wrapped = wrap_in_functions(alloc, numbers, &mut text);
    wrapped.and(Ok(text))
}

// Returns a random condition in `cfg()`.
fn make_attribute(alloc: Global, numbers: &mut Numbers) -> Result<String, AllocError> {
    let inner = make_condition(alloc, numbers)?;
    format!(in alloc; "cfg({inner})")
}

// Pushes the characters of `whole` that begin at byte `start` or later, and before byte `end`.
fn push_part(text: &mut String, whole: &str, start: usize, end: usize) -> Result<(), AllocError> {
    for (index, character) in whole.char_indices() {
        if index >= start && index < end {
            text.push(character)?;
        }
    }
    Ok(())
}

// Pushes `whole` with `token` in place of the characters that begin at byte `start` or later, and
// before byte `end`.
fn push_damaged(
    text: &mut String,
    whole: &str,
    start: usize,
    end: usize,
    token: &str,
) -> Result<(), AllocError> {
    push_part(text, whole, 0, start)?;
    text.push_str(token)?;
    push_part(text, whole, end, whole.len())
}

// Returns a random condition with a random token in place of up to three of its characters.
fn make_damaged(alloc: Global, numbers: &mut Numbers) -> Result<String, AllocError> {
    let whole = make_condition(alloc, numbers)?;
    let start = numbers.below(whole.len());
    let end = start.saturating_add(numbers.below(4));
    let mut text = String::new(alloc);
    let token = numbers.one_of(TOKENS);
    let pushed = push_damaged(&mut text, whole.as_str(), start, end, token);
    pushed.and(Ok(text))
}

// Returns a random character, most often one of ASCII. Returns `None` if the number is that of a
// surrogate.
fn next_character(numbers: &mut Numbers) -> Option<char> {
    let bound = match numbers.below(8) {
        0 => 0x800,
        1 => 0x1_0000,
        2 => 0x11_0000,
        _ => 0x80,
    };
    char::from_u32(u32::try_from(numbers.below(bound)).ok()?)
}

// Pushes up to nine random characters.
fn push_characters(numbers: &mut Numbers, text: &mut String) -> Result<(), AllocError> {
    for _character in 0..numbers.below(10) {
        if let Some(character) = next_character(numbers) {
            text.push(character)?;
        }
    }
    Ok(())
}

// Returns a text of up to 11 random tokens.
fn make_tokens(alloc: Global, numbers: &mut Numbers) -> Result<String, AllocError> {
    let mut text = String::new(alloc);
    let pushed = push_tokens(numbers, &mut text);
    pushed.and(Ok(text))
}

// Returns a text of up to nine random characters.
fn make_characters(alloc: Global, numbers: &mut Numbers) -> Result<String, AllocError> {
    let mut text = String::new(alloc);
    let pushed = push_characters(numbers, &mut text);
    pushed.and(Ok(text))
}

/// Returns a random text: tokens, characters, a condition, a condition in `cfg()` or, most often, a
/// damaged condition.
pub(super) fn make_text(alloc: Global, numbers: &mut Numbers) -> Result<String, AllocError> {
    match numbers.below(6) {
        0 => make_tokens(alloc, numbers),
        1 => make_characters(alloc, numbers),
        2 => make_condition(alloc, numbers),
        3 => make_attribute(alloc, numbers),
        _ => make_damaged(alloc, numbers),
    }
}
