//! How often `audit`, a `Decider` and `pick` ask a target, in long conditions.

/// Rows for `asks_target` of `cfgx_testing`.
pub(crate) const ASKED: &str = r#"
3 | everything | any(~unix,~100000~) | Yes | 100000
3 | everything | ~not(~99999~unix~)~99999~ | No | 1
3 | everything | ~all(~100000~any(unix, test)~)~100000~ | Yes | 1
3 | everything | all(~unix,~100000~test) | Unknown | 100000
3 | nothing | any(~unix,~100000~) | No | 100000
3 | nothing | all(~unix,~100000~test) | No | 100000
3 | nothing | any(~unix,~100000~test) | Unknown | 100000
// The target `here` meets every second predicate.
3 | here | all(~target_os = "here", not(unix),~1000~) | Yes | 2000
3 | here | any(~unix, target_os = "here",~1000~test) | Yes | 2000
3 | here | any(~unix, not(target_os = "here"),~1000~test) | Unknown | 2000
"#;
