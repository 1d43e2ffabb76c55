//! How often `audit`, a `Decider` and `pick` ask a target: once for each occurrence of a predicate
//! on the target, whatever the target answers. `cfgx_long` has rows of long conditions.

/// Rows for `asks_target` of `cfgx_testing`.
pub(crate) const ASKED: &str = r#"
3 | everything | unix | Yes | 1
3 | everything | not(unix) | No | 1
3 | everything | any(unix, not(unix)) | Yes | 2
3 | everything | all(any(unix, windows), not(target_os = "x"), test) | No | 3
3 | everything | all(any(unix, windows), target_os = "x", test) | Unknown | 3
3 | everything | any(a, feature = "x", key = "unix") | Unknown | 0
3 | everything | true | Yes | 0
3 | everything | any() | No | 0
3 | nothing | unix | No | 1
3 | nothing | not(unix) | Yes | 1
3 | nothing | any(unix, windows, panic = "abort") | No | 3
3 | nothing | all(any(unix, windows), not(target_os = "x"), test) | No | 3
3 | nothing | any(a, feature = "x", key = "unix") | Unknown | 0
// The target `here` meets every second predicate of the longer conditions.
3 | here | target_os = "here" | Yes | 1
3 | here | target_os = "there" | No | 1
3 | here | all(target_os = "here", target_os = "there") | No | 2
3 | here | any(target_os = "there", target_os = "here", unix, target_pointer_width = "64") | Yes | 4
3 | here | all(target_os = "here", not(unix), target_pointer_width = "64", not(windows)) | Yes | 4
// An audit takes targets in pieces of 64. A piece that is full, and what is left of one, are asked
// once too.
0 | everything | all(unix, windows) | Yes | 2
1 | everything | all(unix, windows) | Yes | 2
63 | everything | all(unix, windows) | Yes | 2
64 | everything | all(unix, windows) | Yes | 2
65 | everything | all(unix, windows) | Yes | 2
127 | everything | all(unix, windows) | Yes | 2
128 | everything | all(unix, windows) | Yes | 2
129 | everything | all(unix, windows) | Yes | 2
130 | everything | all(unix, windows) | Yes | 2
64 | nothing | any(unix, a, unix) | Unknown | 2
65 | nothing | any(unix, a, unix) | Unknown | 2
130 | nothing | any(unix, a, unix) | Unknown | 2
64 | here | all(target_os = "here", not(unix), any(windows, target_pointer_width = "64")) | Yes | 4
65 | here | all(target_os = "here", not(unix), any(windows, target_pointer_width = "64")) | Yes | 4
130 | here | all(target_os = "here", not(unix), any(windows, target_pointer_width = "64")) | Yes | 4
"#;
