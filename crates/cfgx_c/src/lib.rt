//! The engine for C, and for each language that can call C. `include/cfgx.h` declares its calls,
//! and `docs/C.md` is its page.
#![tactic(auto)]

mod answers;
mod apply;
mod audit;
mod buffer;
mod bytes;
mod check;
mod compile;
mod decide;
mod ends;
mod explain;
mod fault;
pub mod laws;
mod predicates;
mod reading;
mod run;
mod status;
mod steps;
mod streams;
mod tokens;
mod value;
mod version;

pub use answers::cfgx_answers;
pub use apply::cfgx_apply;
pub use audit::cfgx_audit;
pub use check::cfgx_check;
pub use compile::cfgx_compile;
pub use decide::cfgx_decide;
pub use explain::cfgx_explain;
pub use fault::CfgxFault;
pub use predicates::{CfgxPredicate, cfgx_predicates};
pub use run::cfgx_run;
pub use steps::CfgxStep;
pub use tokens::{CfgxToken, cfgx_tokens};
pub use value::cfgx_value;
pub use version::cfgx_version;
