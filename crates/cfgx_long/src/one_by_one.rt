//! The values of short conditions over all answers, compared with those of all fillings.
use cfg_expr::Expression;
use cfgx_testing::answers::{Answer, each_call_finds, eval_over_answers};
use cfgx_testing::checking::push_ok;
use std::alloc::{AllocError, Global};
use std::test::Fail;

// Pushes `text`, its `not`, and the `all` and the `any` of `text` and each of `texts`.
fn push_functions(
    alloc: Global,
    functions: &mut Vec<String>,
    text: &str,
    texts: &[String],
) -> Result<(), AllocError> {
    push_ok(functions, String::from_str(alloc, text))?;
    push_ok(functions, format!(in alloc; "not({text})"))?;
    for other in texts {
        push_ok(functions, format!(in alloc; "all({text},{other})"))?;
        push_ok(functions, format!(in alloc; "any({text},{other})"))?;
    }
    Ok(())
}

// Returns the texts, the `not` of each, and each `all` and `any` of two texts.
fn with_functions(alloc: Global, texts: &[String]) -> Result<Vec<String>, AllocError> {
    let mut functions = Vec::new(alloc);
    for text in texts {
        push_functions(alloc, &mut functions, text.as_str(), texts)?;
    }
    Ok(functions)
}

// Returns the texts from which all others are made.
fn first_texts(alloc: Global) -> Result<Vec<String>, AllocError> {
    let mut texts = Vec::new(alloc);
    for text in &["x", "any()", "true", "false"] {
        push_ok(&mut texts, String::from_str(alloc, *text))?;
    }
    Ok(texts)
}

fn all_texts(alloc: Global) -> Result<Vec<String>, AllocError> {
    let texts = first_texts(alloc)?;
    let texts = with_functions(alloc, texts.as_slice())?;
    with_functions(alloc, texts.as_slice())
}

// Returns `count` answers, each a digit of `number` in base three.
fn answers_of(alloc: Global, number: usize, count: usize) -> Result<Vec<Answer>, AllocError> {
    let mut answers = Vec::with_capacity(alloc, count)?;
    let mut rest = number;
    for _answer in 0..count {
        answers.push([None, Some(false), Some(true)][rest % 3])?;
        rest /= 3;
    }
    Ok(answers)
}

// Returns the value over `bool` if each unknown answer is replaced by the bit of `bits` at its
// index.
fn eval_filled(
    alloc: Global,
    expression: &Expression,
    answers: &[Answer],
    bits: usize,
) -> Option<bool> {
    let mut rest = bits;
    let mut filled = Vec::with_capacity(alloc, answers.len()).ok()?;
    for answer in answers {
        filled.push(answer.unwrap_or(rest % 2 == 1)).ok()?;
        rest /= 2;
    }
    eval_over_answers(alloc, expression, filled.as_slice())
}

// Returns the value to which all fillings of up to four answers lead, or unknown if they differ.
fn common_value(alloc: Global, expression: &Expression, answers: &[Answer]) -> Option<Answer> {
    let first = eval_filled(alloc, expression, answers, 0)?;
    for bits in 1..1 << answers.len().min(4) {
        if eval_filled(alloc, expression, answers, bits)? != first {
            return Some(None);
        }
    }
    Some(Some(first))
}

// Returns whether each call finds the common value of the fillings, over the answers that `number`
// encodes.
fn calls_find_common_value(alloc: Global, expression: &Expression, number: usize) -> Option<bool> {
    let answers = answers_of(alloc, number, expression.predicates().left()).ok()?;
    let value = common_value(alloc, expression, answers.as_slice())?;
    Some(each_call_finds(alloc, expression, answers.as_slice(), value))
}

// Returns whether each call finds the common value over the answers of each number below `cases`.
fn calls_find_common_values(alloc: Global, expression: &Expression, cases: usize) -> bool {
    for number in 0..cases {
        if calls_find_common_value(alloc, expression, number) != Some(true) {
            return false;
        }
    }
    true
}

// Returns the number of lists of answers to the text, which has up to four predicates. Returns
// `None` if a call finds another value than the common one over a list.
fn count_cases(alloc: Global, text: &str) -> Option<usize> {
    let expression = Expression::parse(alloc, text).ok()?;
    let left = expression.predicates().left();
    let cases = [1, 3, 9, 27, 81].get(left).copied().unwrap_or(0);
    calls_find_common_values(alloc, &expression, cases).then_some(cases)
}

#[test]
fn values_are_common_to_all_fillings(rt: HostRuntime) -> Result<(), Fail> {
    let mut cases = 0usize;
    for text in &all_texts(rt.alloc())? {
        let found = count_cases(rt.alloc(), text.as_str()).unwrap_or(0);
        assert!(rt; found > 0, "{text}");
        cases = cases.saturating_add(found);
    }
    assert!(rt; cases > 5_000, "{cases} cases");
    Ok(())
}
