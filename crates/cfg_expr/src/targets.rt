//! Targets, their fields, and tables of them.

pub use cfgx_fields::atomic::{HasAtomic, HasAtomicFailure};
pub use cfgx_fields::endian::Endian;
pub use cfgx_fields::text_key::TextKey;
pub use cfgx_fields::{Abi, Arch, Env, Family, Os, Panic, Triple, Vendor};
pub use cfgx_targets::atomics::HasAtomics;
pub use cfgx_targets::builtins;
pub use cfgx_targets::builtins::rustc_version;
pub use cfgx_targets::families::Families;
pub use cfgx_targets::info::TargetInfo;
pub use cfgx_targets::table::{TableError, TargetTable, get_builtin_target_by_triple};
