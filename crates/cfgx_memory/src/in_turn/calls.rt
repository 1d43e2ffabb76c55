//! Values that are made and copied, inputs that are read, and conditions that are audited.
use super::audits::check_condition;
use super::facts::check_facts;
use super::fields::{check_field, check_plain_predicate, check_predicate};
use super::inputs::{check_input, stops_at_failed_read};
use super::lexing::check_copied_fault;
use super::lists::{check_families, check_long_list, check_widths};
use super::rows::{check_builtin, check_builtin_row};
use super::widths::check_width_error;
use super::{Call, Outcome, refuse_each_growth};
use cfg_expr::memory::SmallAllocator;
use cfgx_parser::unaskable::is_unaskable;
use cfgx_testing::checking::is_ok_true;
use cfgx_testing::heap::{empty_heap, has_every_block};
use std::alloc::Global;

/// The kind of a value and its name, whether the call takes memory, and texts. The value is made
/// from each text, or prints it. With `some` the call takes memory, and each growth is refused in
/// turn; with `none` it takes none. With `once` it is made once, with no growth refused.
pub(super) const CALLS: &str = r#"
// The owned text and its copy take memory. The copy of the borrowed text takes none.
field triple | some | \u{e9} | a text of seventeen | ~v~100000~
field abi | some | \u{e9} | a text of seventeen | ~v~100000~
field arch | some | \u{e9} | a text of seventeen | ~v~100000~
field vendor | some | \u{e9} | a text of seventeen | ~v~100000~
field os | some | \u{e9} | a text of seventeen | ~v~100000~
field family | some | \u{e9} | a text of seventeen | ~v~100000~
field env | some | \u{e9} | a text of seventeen | ~v~100000~
field panic | some | \u{e9} | a text of seventeen | ~v~100000~
predicate abi | some | \u{e9} | a text of seventeen | ~v~100000~
predicate arch | some | \u{e9} | a text of seventeen | ~v~100000~
predicate vendor | some | \u{e9} | a text of seventeen | ~v~100000~
predicate os | some | \u{e9} | a text of seventeen | ~v~100000~
predicate family | some | \u{e9} | a text of seventeen | ~v~100000~
predicate env | some | \u{e9} | a text of seventeen | ~v~100000~
predicate panic | some | \u{e9} | a text of seventeen | ~v~100000~
plain big | none | \e
plain ptr | none | \e
plain 8 | none | \e
plain 64 | none | \e
families unix | some | {unix}
families unix and wasm | some | {unix, wasm}
families wasm | some | {wasm}
families windows | some | {windows}
families four | some | {, b, unix, wasm}
many families | once | unix~ unix~9999~
widths borrowed | none | {8, ptr}
widths 128 | some | {8, 16, 32, 64, 128, ptr}
widths 64 | some | {8, 16, 32, 64, ptr}
widths 32 | some | {8, 16, 32, ptr}
widths two | some | {8, ptr}
many widths | some | \e
width error | some | expected integer or "ptr", found PTR
row | some | \e
builtin | some | aarch64-apple-darwin | aarch64-apple-ios | aarch64-apple-ios-macabi\
 | aarch64-apple-ios-sim | aarch64-apple-tvos
fault | some | a | \u{e9} | a text of seventeen | ~v~100000~
// Facts that are read beside `a`.
facts flags | some | a | all(b, not(a)) | ?cfg(key = "v") | any(~b,~40~)\
 | ~not(~40~b~)~40~ | ~k~1000~
facts lines | some | a | all(b, not(a)) | ?cfg(key = "v") | any(~b,~40~)\
 | ~not(~40~b~)~40~ | ~k~1000~\
 | target_x = "y" | feature | ?target_os
facts with a faulty flag | some | key) | ?not(a, b) | "~v~1000~ | target_x = "y"
facts with a faulty line | some | key) | ?not(a, b) | "~v~1000~ | target_feature = ""
// The value, as a digit, of a condition on a target with the fact `a`.
audit 1 | some | a | all(a, not(b)) | any(~b,~40~a) | ~not(~40~a~)~40~
audit 0 | some | b | all(b, any(a), not(a), c, d, e, f, g, h)
unaskable | some | target_x = "y" | cfg(feature)
input | some | \e | ----------
input | some | ~-~300000~
// What was read before a failed read is freed.
failed read | once | 1 | 2 | 3 | 4 | 5
"#;

/// Makes the call, such as `field os`, with `text` and checks its result.
pub(super) fn check_call<A: SmallAllocator>(
    global: Global,
    alloc: A,
    call: &str,
    text: &str,
) -> Outcome {
    let (kind, name) = call.split_once(' ').unwrap_or((call, ""));
    match (kind, name) {
        ("field", _) => check_field(alloc, name, text),
        ("predicate", _) => check_predicate(alloc, name, text),
        ("plain", _) => check_plain_predicate(alloc, name),
        ("families", _) => check_families(global, alloc, name, text),
        ("widths", _) => check_widths(global, alloc, name, text),
        ("many", _) => check_long_list(alloc, name, text),
        ("width", "error") => check_width_error(global, alloc, text),
        ("row", "") => check_builtin_row(alloc),
        ("builtin", "") => check_builtin(alloc, text),
        ("fault", "") => check_copied_fault(alloc, text),
        ("facts", _) => check_facts(alloc, name, text),
        ("audit", _) => check_condition(alloc, name, text),
        ("unaskable", "") => is_unaskable(alloc, text),
        ("input", "") => check_input(global, alloc, text.as_bytes()),
        ("failed", "read") => Ok(stops_at_failed_read(alloc, text)),
        _ => Ok(false),
    }
}

// Returns whether the call passes its check with no growth refused, and every block is freed.
fn passes_once(global: Global, call: &str, text: &str) -> bool {
    let heap = empty_heap(global);
    is_ok_true(check_call(global, &heap, call, text)) & has_every_block(heap)
}

// Returns whether the call passes its check with each growth refused in turn, and takes memory if
// `growths` says so.
fn passes(global: Global, call: &str, growths: &str, text: &str) -> bool {
    if growths == "once" {
        return passes_once(global, call, text);
    }
    match refuse_each_growth(global, Call::Other(call, text)) {
        Some(count) => growths == if count > 0 { "some" } else { "none" },
        None => false,
    }
}

/// Returns whether the call of the row passes its check with each text.
pub(super) fn row_passes(global: Global, fields: &[String]) -> bool {
    let [call, growths, texts @ ..] = fields else {
        return false;
    };
    for text in texts {
        if !passes(global, call.as_str(), growths.as_str(), text.as_str()) {
            return false;
        }
    }
    !texts.is_empty()
}
