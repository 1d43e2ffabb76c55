//! Conditions with a hundred thousand members or functions: their decisions with unknown answers,
//! and their values in lanes.
use cfg_expr::Expression;
use cfg_expr::expr::Condition;
use cfg_expr::expr::logic::Kleene64;
use cfgx_testing::answers::eval_in_lanes;
use cfgx_testing::fillings::each_call_decides;
use std::alloc::Global;

/// A text, the answers in the order of the questions, and the decision: the value if it is known,
/// or else the two fillings with which it is true and false.
pub(crate) const LARGE: &str = r#"
any(~a,~100000~) | ~?~100000~ | ~1~100000~ ~0~100000~
any(~a,~100000~true) | ~?~100000~ | true
all(~a,~100000~any()) | ~?~100000~ | false
~not(~100000~a~)~100000~ | ? | 1 0
~not(~99999~a~)~99999~ | ? | 0 1
~not(~99999~a~)~99999~ | 1 | false
"#;

/// Returns whether the text of the row is decided as the row says.
pub(crate) fn decides(alloc: Global, row: &[String]) -> bool {
    match row {
        [text, answers, decision] => {
            each_call_decides(alloc, text.as_str(), answers.as_str(), decision.as_str())
                == Some(true)
        }
        _ => false,
    }
}

/// An `any` with many members.
pub(crate) const MEMBERS: &str = r#"
any(~a,~100000~)
"#;

// Evaluates the condition in lanes. Returns `None` unless there is one answer for each predicate.
fn eval_condition_in_lanes(
    alloc: Global,
    condition: &Condition<'_>,
    answers: &[Kleene64],
) -> Option<Kleene64> {
    if condition.predicates().left() == answers.len() {
        condition.eval_lanes(alloc, answers).ok()
    } else {
        None
    }
}

// Returns whether the expression of the text and its condition have the value `wanted` in lanes.
// Returns `None` if the text is faulty.
fn values_are(alloc: Global, text: &str, answers: &[Kleene64], wanted: Kleene64) -> Option<bool> {
    let expression = Expression::parse(alloc, text).ok()?;
    let condition = expression.condition();
    Some(
        eval_in_lanes(alloc, &expression, answers) == Some(wanted)
            && eval_condition_in_lanes(alloc, &condition, answers) == Some(wanted),
    )
}

// Returns whether the value of `any` is that of its first member, which is true in lane 1 and false
// in lane 0. All other members are false in both lanes.
fn any_is_first_member(alloc: Global, text: &str) -> Option<bool> {
    let first = Kleene64::new(0b10, 0b01);
    let mut answers = vec![in alloc; Kleene64::new(0, 0b11); 100_000].ok()?;
    *answers.first_mut()? = first;
    values_are(alloc, text, answers.as_slice(), first)
}

/// Returns whether the value of the text of the row is that of its first member.
pub(crate) fn first_member_decides(alloc: Global, row: &[String]) -> bool {
    match row {
        [text] => any_is_first_member(alloc, text.as_str()) == Some(true),
        _ => false,
    }
}
