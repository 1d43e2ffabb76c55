//! Conditions that are compared, printed, spelled, read again and evaluated.
use super::tables::rows_with_memory;
use crate::in_turn::AllocResult;
use crate::in_turn::expressions::{check_eval_steps, check_expression_call};
use crate::in_turn::reading::check_read;
use crate::in_turn::texts::Parsed;
use crate::in_turn::verdicts::Nowhere;
use cfg_expr::expr::logic::Kleene64;
use cfg_expr::expr::{Condition, ConditionReader, Predicates, Step, spell};
use cfg_expr::memory::SmallAllocator;
use cfg_expr::targets::TargetInfo;
use cfg_expr::{Expression, Predicate, TargetPredicate};
use cfgx_engine::resolve::audit;
use cfgx_testing::checking::{is_ok_true, prints};
use cfgx_testing::heap::Heap;
use cfgx_testing::refusing::EVERY;
use cfgx_testing::triples::{DARWIN, IOS, MACABI, SIM, TVOS};
use std::alloc::Global;

/// Parses the text with memory. Every later growth is refused.
pub(super) fn parse_with_memory<A: SmallAllocator>(
    heap: Heap<'_>,
    alloc: A,
    text: &str,
) -> Parsed<A> {
    heap.refuse(0);
    let parsed = Expression::parse(alloc, text);
    heap.refuse(EVERY);
    parsed
}

// Compares the expression with `other`, and their predicates. Returns whether the two results are
// `wanted`.
fn equality_is<A: SmallAllocator>(
    expression: &Expression<A>,
    other: &Parsed<A>,
    wanted: (bool, bool),
) -> bool {
    match other {
        Ok(other) => {
            (expression == other) == wanted.0
                && expression.predicates().eq(other.predicates()) == wanted.1
        }
        Err(_) => false,
    }
}

// Compares the expression with that of `TEXT`, and their predicates. Returns whether the two
// results are `wanted`.
fn equality_with_text_is<A: SmallAllocator>(
    heap: Heap<'_>,
    alloc: A,
    expression: &Expression<A>,
    wanted: (bool, bool),
) -> bool {
    equality_is(expression, &parse_with_memory(heap, alloc, TEXT), wanted)
}

// A text for which every vector of a reader leaves its inline room.
const LONG: &str = "all(a, b, c, d, e, not(any(not(f))))";

// Returns whether reading the text returns what parsing it in `global` returns.
fn reads<'t, A: SmallAllocator>(
    global: Global,
    reader: &mut ConditionReader<'t, A>,
    text: &'t str,
) -> bool {
    is_ok_true(check_read(reader, text, &Expression::parse(global, text)))
}

// Returns whether the reader reads `LONG` with memory, and then the text and `LONG` again without
// memory.
fn reads_after_long<'t, A: SmallAllocator>(
    global: Global,
    heap: Heap<'_>,
    reader: &mut ConditionReader<'t, A>,
    text: &'t str,
) -> bool {
    heap.refuse(0);
    let is_read = reads(global, reader, LONG);
    heap.refuse(EVERY);
    is_read && reads(global, reader, text) && reads(global, reader, LONG)
}

// Returns whether a new reader reads `LONG` with memory, and then the text and `LONG` again without
// memory.
fn is_read_after_long<A: SmallAllocator>(
    global: Global,
    heap: Heap<'_>,
    alloc: A,
    text: &str,
) -> bool {
    let mut reader = ConditionReader::new(alloc);
    reads_after_long(global, heap, &mut reader, text)
}

// Writes the spelling of the next predicate, if there is one. Returns whether it did.
fn spell_next(predicates: &mut Predicates<'_>, spellings: &mut Vec<u8>) -> bool {
    let next = predicates.next();
    let is_spelled = match &next {
        Some(predicate) => spell(predicate, spellings).is_ok(),
        None => false,
    };
    drop(next);
    is_spelled
}

// Writes the spellings of all predicates. Returns whether `counts` has the number of predicates
// left before each of them.
fn spell_all(predicates: &mut Predicates<'_>, counts: &[usize], spellings: &mut Vec<u8>) -> bool {
    for count in counts {
        if predicates.left() != *count || !spell_next(predicates, spellings) {
            return false;
        }
    }
    predicates.left() == 0 && predicates.next().is_none()
}

// Returns whether the predicates have `spellings`, and `counts` has the number of predicates left
// before each of them.
fn are_spelled(
    global: Global,
    mut predicates: Predicates<'_>,
    counts: &[usize],
    spellings: &str,
) -> bool {
    let mut bytes = Vec::new(global);
    spell_all(&mut predicates, counts, &mut bytes) && bytes.as_slice() == spellings.as_bytes()
}

// Returns the value in a lane, or `None` if there is no such lane.
fn value_in_lane(lanes: Kleene64, lane: usize) -> Option<bool> {
    if lane < 64 { lanes.lane(lane) } else { None }
}

// Returns whether the row of the simulator is the only one that meets the predicate, by `matches`
// and by `lanes`.
fn only_simulator_meets<A: SmallAllocator>(
    predicate: &TargetPredicate<'_>,
    rows: &[TargetInfo<'_, A>],
) -> bool {
    if rows.len() > 64 {
        return false;
    }
    let lanes = predicate.lanes(rows);
    for (lane, row) in rows.iter().enumerate() {
        let is_simulator = row.triple.as_str() == SIM;
        if predicate.matches(row) != is_simulator
            || value_in_lane(lanes, lane) != Some(is_simulator)
        {
            return false;
        }
    }
    rows.len() == TRIPLES.len() && (lanes.is_true() | lanes.is_false()) == 0b11111
}

// The triples of the rows that are asked.
const TRIPLES: &[&str; 5] = &[DARWIN, IOS, MACABI, SIM, TVOS];

// Returns whether `predicate` is about targets, and only the row of the simulator meets it.
fn is_met_by_simulator<A: SmallAllocator>(
    predicate: Option<Predicate<'_>>,
    rows: &[TargetInfo<'_, A>],
) -> bool {
    let is_met = match &predicate {
        Some(Predicate::Target(target)) => only_simulator_meets(target, rows),
        _ => false,
    };
    drop(predicate);
    is_met
}

// Returns whether only the row of the simulator meets the first predicate of `expression`.
fn asks_for_simulator<A: SmallAllocator>(
    expression: &Expression<A>,
    rows: &AllocResult<Vec<TargetInfo<'_, A>, A>>,
) -> bool {
    match rows {
        Ok(rows) => is_met_by_simulator(expression.predicates().next(), rows.as_slice()),
        Err(_) => false,
    }
}

// Returns whether `audit` returns an empty list for an empty list of targets.
fn audits_no_target<A: SmallAllocator>(alloc: A, expression: &Expression<A>) -> bool {
    let targets: &[Nowhere] = &[];
    matches!(audit(alloc, expression, targets), Ok(verdicts) if verdicts.is_empty())
}

// Compiles the expression to steps with memory. Returns whether there are 33, which have the value
// true.
fn runs_steps<A: SmallAllocator>(heap: Heap<'_>, alloc: A, expression: &Expression<A>) -> bool {
    heap.refuse(0);
    let steps = expression.steps(alloc);
    heap.refuse(EVERY);
    match &steps {
        Ok(steps) => {
            let count = expression.predicates().left();
            steps.len() == 33 && is_ok_true(check_eval_steps(alloc, steps.as_slice(), count))
        }
        Err(_) => false,
    }
}

// Writes the steps of the condition into a buffer. Returns whether they are those of `steps`, which
// have the value true. The buffer is made, and the steps are compared, with memory.
fn writes_steps<A: SmallAllocator>(
    heap: Heap<'_>,
    alloc: A,
    condition: &Condition<'_>,
) -> AllocResult<bool> {
    heap.refuse(0);
    let mut written = vec![in alloc; Step::Literal(false); condition.step_count()]?;
    heap.refuse(EVERY);
    condition.write_steps(written.as_mut_slice());
    heap.refuse(0);
    let steps = condition.steps(alloc)?;
    let count = condition.predicates().left();
    let is_true = check_eval_steps(alloc, written.as_slice(), count)?;
    Ok(is_true && written.as_slice() == steps.as_slice())
}

const TEXT: &str = "all(a, any(b), feature = \"a feature with a long name\")";

/// A check, and the text of its expression. The first five are compared with `TEXT`, what is read
/// again is read after `LONG`, what is evaluated has 66 bytes, and `steps` makes 33 steps.
/// Steps are written for any condition.
pub(super) const CONDITIONS: &str = r#"
text | all(a, any(b), feature = "a feature with a long name")
predicates | all(a, any(b), feature = "a feature with a long name")
equal | all(a, any(b), feature = "a feature with a long name")
one comma more | all(a, any(b), feature = "a feature with a long name"),
other predicates | all(a, any(b), c)
read again | a
read again | cfg(all(any(a, b), not(key = "v")))
read again | any()
simulator alone | target_abi = "sim"
no target | all(unix, a)
spelling | target_has_atomic = "+00128"
eval | any(~a,~30~a)
eval | ~not(~12~abcdef~)~12~
eval | all(~all(),~10~a)
eval_lanes | any(~a,~30~a)
eval_lanes | ~not(~12~abcdef~)~12~
eval_lanes | all(~all(),~10~a)
Condition::eval | any(~a,~30~a)
Condition::eval | ~not(~12~abcdef~)~12~
Condition::eval | all(~all(),~10~a)
Condition::eval_lanes | any(~a,~30~a)
Condition::eval_lanes | ~not(~12~abcdef~)~12~
Condition::eval_lanes | all(~all(),~10~a)
eval_over | any(~a,~30~a)
eval_over | ~not(~12~abcdef~)~12~
eval_over | all(~all(),~10~a)
steps | any(~a,~32~)
steps | ~not(~32~a~)~32~
write_steps | a
write_steps | cfg(key)
write_steps | all(a, any(b), c)
write_steps | ~k~1000~
write_steps | key = "~v~1000~"
write_steps | all(~any(a, b),~40~)
write_steps | ~not(~40~a~)~40~
write_steps | any(a,~false,~40~)
write_steps | any(~a,~100~)
write_steps | ~any(~100~a~)~100~
write_steps | ~not(~100~a~)~100~
write_steps | all(a,~true,~100~)
write_steps | any(a,~false,~100~)
write_steps | any(a,~false,~50000~)
write_steps | ~not(~50000~a~)~50000~
"#;

const SPELLINGS: &str = "bafeature = \"a feature with a long name\"";

const WIDTH_SPELLING: &str = "target_has_atomic = \"128\"";

// Returns whether `expression` and its condition have the text `TEXT`, and `expression` prints it.
fn has_text<A: SmallAllocator>(global: Global, expression: &Expression<A>) -> bool {
    expression.original() == TEXT
        && expression.condition().original() == TEXT
        && prints(global, expression, TEXT)
}

// Returns whether `expression` passes the check with the name `check`.
fn expression_passes<A: SmallAllocator>(
    global: Global,
    heap: Heap<'_>,
    alloc: A,
    check: &str,
    expression: &Expression<A>,
) -> bool {
    match check {
        "text" => has_text(global, expression),
        "predicates" => are_spelled(global, expression.predicates(), &[3, 2, 1], SPELLINGS),
        "spelling" => are_spelled(global, expression.predicates(), &[1], WIDTH_SPELLING),
        "equal" => equality_with_text_is(heap, alloc, expression, (true, true)),
        "one comma more" => equality_with_text_is(heap, alloc, expression, (false, true)),
        "other predicates" => equality_with_text_is(heap, alloc, expression, (false, false)),
        "simulator alone" => {
            asks_for_simulator(expression, &rows_with_memory(heap, alloc, TRIPLES))
        }
        "no target" => audits_no_target(alloc, expression),
        "eval" | "eval_lanes" | "Condition::eval" | "Condition::eval_lanes" | "eval_over" => {
            is_ok_true(check_expression_call(alloc, check, expression))
        }
        "steps" => runs_steps(heap, alloc, expression),
        "write_steps" => is_ok_true(writes_steps(heap, alloc, &expression.condition())),
        _ => false,
    }
}

// Returns whether `text` passes the check with the name `check`. Parsing it returned `parsed`.
fn passes<A: SmallAllocator>(
    global: Global,
    heap: Heap<'_>,
    alloc: A,
    (check, text): (&str, &str),
    parsed: &Parsed<A>,
) -> bool {
    match parsed {
        Ok(_) if check == "read again" => is_read_after_long(global, heap, alloc, text),
        Ok(expression) => expression_passes(global, heap, alloc, check, expression),
        Err(_) => false,
    }
}

/// Returns whether the text of the row passes the check of the row, with every growth refused.
pub(super) fn row_passes<A: SmallAllocator>(
    global: Global,
    heap: Heap<'_>,
    alloc: A,
    row: &[String],
) -> bool {
    let [check, text] = row else {
        return false;
    };
    let row = (check.as_str(), text.as_str());
    let parsed = parse_with_memory(heap, alloc, text.as_str());
    passes(global, heap, alloc, row, &parsed)
}
