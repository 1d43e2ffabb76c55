//! Texts that one reader reads one after another.
use super::texts::{Parsed, is_same_condition, is_same_fault};
use super::{Outcome, combine};
use cfg_expr::Expression;
use cfg_expr::error::Failure;
use cfg_expr::expr::{Condition, ConditionReader};
use cfg_expr::memory::SmallAllocator;
use cfgx_testing::checking::is_ok_true;
use cfgx_testing::heap::{Heap, count_growths};
use std::alloc::{AllocError, Global};

// Checks that `read` is equal to `expected`.
fn check_condition<A: SmallAllocator>(
    read: &Result<Condition<'_>, Failure<A>>,
    expected: &Parsed,
) -> Outcome {
    match (read, expected) {
        (Ok(condition), Ok(expected)) => { Ok(is_same_condition(condition, &expected.condition())) }
        (Err(Failure::Parse(error)), Err(Failure::Parse(expected))) => {
            Ok(is_same_fault(error, expected))
        }
        (Err(Failure::Memory(_)), _) => Err(AllocError),
        _ => Ok(false),
    }
}

/// Checks that reading the text returns `expected`. Out of memory, a second read must return it.
pub(crate) fn check_read<'t, A: SmallAllocator>(
    reader: &mut ConditionReader<'t, A>,
    text: &'t str,
    expected: &Parsed,
) -> Outcome {
    let outcome = check_condition(&reader.read(text), expected);
    if outcome.is_ok() || is_ok_true(check_condition(&reader.read(text), expected)) {
        outcome
    } else {
        Ok(false)
    }
}

// Checks that the reader finds the fault of `a)`.
fn check_faulty_read<A: SmallAllocator>(reader: &mut ConditionReader<'_, A>) -> Outcome {
    match reader.read("a)") {
        Err(Failure::Parse(error)) => Ok(error.span.start == 1 && error.span.end == 2),
        Err(Failure::Memory(error)) => Err(error),
        Ok(_) => Ok(false),
    }
}

// Checks two reads of the text, with a faulty text between them.
fn check_reads<'t, A: SmallAllocator>(
    reader: &mut ConditionReader<'t, A>,
    text: &'t str,
    expected: &Parsed,
) -> Outcome {
    let first = check_read(reader, text, expected);
    let faulty = check_faulty_read(reader);
    let second = check_read(reader, text, expected);
    combine(&[first, faulty, second])
}

/// Checks two reads of the text by a new reader, with a faulty text between them.
pub(super) fn check_reader<A: SmallAllocator>(alloc: A, text: &str, expected: &Parsed) -> Outcome {
    let mut reader = ConditionReader::new(alloc);
    check_reads(&mut reader, text, expected)
}

/// Texts that one reader reads one after another. Behind each stands `none` if reading it takes no
/// memory, and `may` if it may take some: it has a fault, it needs more room than each text before
/// it, or it follows the first text that has a node. Each growth is refused in turn.
pub(super) const READ: &str = r#"
a | may | ~not(~7~a~)~7~ | may | any(a,b,c,d,e,f,g) | may | any(a,b,c,d,e,f,g,h) | may\
 | any(a,b,c,d,e,f,g) | none
a | may | a | may | any(~a,~9~) | may | any(~a,~9~) | none
a | may | a | may | ~not(~9~a~)~9~ | may | ~not(~9~a~)~9~ | none
any(~any(),    ~60~) | may | a | may | any(~any(),    ~60~) | none
a | may | a | may | any(~any(),    ~60~) | may | any(~any(),    ~60~) | none
any(~any(),    ~60~) | may | a | may | any(~any(),    ~600~) | may | any(~any(),    ~60~) | none
~k~1000~ | may | ~k~1000~ | may | any(~any(),    ~11~) | may | any(~any(),    ~60~) | may\
 | any(~any(),    ~11~) | none
a | may | a | may | key) | may | a | none
) | may | a | may | a | may | a | none
any(~a,~5~) | may | a | may | a | none
"#;

// Checks that reading the text returns what parsing it returns.
fn check_read_text<'t, A: SmallAllocator>(
    global: Global,
    reader: &mut ConditionReader<'t, A>,
    text: &'t str,
) -> Outcome {
    check_read(reader, text, &Expression::parse(global, text))
}

// Checks a read of the text. If `wanted` is `none`, it must take no growth, unless one was refused
// before: then the reader may still lack room that it asked for.
fn check_growths_of_read<'t, A: SmallAllocator>(
    global: Global,
    heap: Heap<'_>,
    reader: &mut ConditionReader<'t, A>,
    text: &'t str,
    wanted: &str,
) -> Outcome {
    let asked = heap.asked_growths();
    let outcome = check_read_text(global, reader, text);
    match wanted {
        "may" => outcome,
        "none" if heap.asked_growths() == asked || heap.refused_growths() > 0 => outcome,
        _ => Ok(false),
    }
}

// Checks the reads of all pairs of a text and a word.
fn check_pairs<'t, A: SmallAllocator>(
    global: Global,
    heap: Heap<'_>,
    reader: &mut ConditionReader<'t, A>,
    row: &'t [String],
) -> Outcome {
    let mut checked = Ok(!row.is_empty());
    for pair in row.chunks(2) {
        let [text, wanted] = pair else {
            return Ok(false);
        };
        let outcome = check_growths_of_read(global, heap, reader, text.as_str(), wanted.as_str());
        checked = combine(&[outcome, checked]);
    }
    checked
}

// Checks that a new reader reads the pairs of the row.
fn check_row<A: SmallAllocator>(
    global: Global,
    heap: Heap<'_>,
    alloc: A,
    row: &[String],
) -> Outcome {
    let mut reader = ConditionReader::new(alloc);
    check_pairs(global, heap, &mut reader, row)
}

/// Returns whether a reader reads the row, with each growth refused in turn.
pub(super) fn row_passes(global: Global, row: &[String]) -> bool {
    count_growths(global, |heap| check_row(global, heap, heap, row)).is_some()
}
