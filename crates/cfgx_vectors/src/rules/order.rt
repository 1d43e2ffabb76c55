//! The order of the predicates, and the nodes of the parser.
use cfg_expr::error::Failure;
use cfg_expr::expr::Predicates;
use cfg_expr::{Expression, Predicate};
use cfgx_parser::nodes::ExprNode;
use cfgx_parser::parser::Parser;
use cfgx_syntax::lexer::Lexer;
use std::alloc::{AllocError, Global};

// Returns the name of a flag, or nothing for another predicate.
fn name_of<'a>(predicate: &Option<Predicate<'a>>) -> &'a str {
    match predicate {
        Some(Predicate::Flag(name)) => name,
        _ => "",
    }
}

// Returns the number of predicates before the next call, and the name that the call returns.
fn call_text(alloc: Global, predicates: &mut Predicates<'_>) -> Result<String, AllocError> {
    let left = predicates.left();
    let next = predicates.next();
    let name = name_of(&next);
    drop(next);
    format!(in alloc; "{left}{name}")
}

// Returns the texts of all calls, until two of them returned `None`. Spaces separate the texts.
fn texts_of_calls(alloc: Global, mut predicates: Predicates<'_>) -> Result<String, AllocError> {
    let mut text = String::new(alloc);
    for number in 0..predicates.left().saturating_add(2) {
        text.push_str(if number == 0 { "" } else { " " })?;
        text.push_str(call_text(alloc, &mut predicates)?.as_str())?;
    }
    Ok(text)
}

/// Returns what each call of `next` of the predicates of `text` returns.
pub(super) fn calls_text(alloc: Global, text: &str) -> Result<String, Failure> {
    let expression = Expression::parse(alloc, text)?;
    Ok(texts_of_calls(alloc, expression.predicates())?)
}

// Returns the length of the subtree of a node, which that of a function keeps.
fn subtree_len(node: &ExprNode) -> usize {
    match node {
        ExprNode::Fn { len, .. } => *len,
        ExprNode::Predicate(_) | ExprNode::Literal(_) => 1,
    }
}

// Pushes a number, with a space before it unless it is the first.
fn push_number(alloc: Global, text: &mut String, number: usize) -> Result<(), AllocError> {
    if !text.is_empty() {
        text.push_str(" ")?;
    }
    text.push_str(format!(in alloc; "{number}")?.as_str())
}

// Pushes the lengths of the trees and the places of the predicates, which a semicolon separates.
fn push_numbers(
    alloc: Global,
    text: &mut String,
    nodes: &[ExprNode],
    places: &[usize],
) -> Result<(), AllocError> {
    for node in nodes {
        push_number(alloc, text, subtree_len(node))?;
    }
    text.push_str(";")?;
    for place in places {
        push_number(alloc, text, *place)?;
    }
    Ok(())
}

// Returns the lengths of the trees and the places of the predicates.
fn lengths_and_places(
    alloc: Global,
    nodes: &[ExprNode],
    places: &[usize],
) -> Result<String, AllocError> {
    let mut text = String::new(alloc);
    push_numbers(alloc, &mut text, nodes, places)?;
    Ok(text)
}

/// Returns the nodes of `text`: the length of the tree at each node, and the places of the
/// predicates.
pub(super) fn nodes_text(alloc: Global, text: &str) -> Result<String, Failure> {
    let mut parser = Parser::new(alloc, text.len());
    parser.read_all(alloc, Lexer::new(alloc, text))?;
    Ok(lengths_and_places(alloc, parser.nodes(), parser.places())?)
}
