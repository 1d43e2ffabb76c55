//! The named values of the field types, which borrow their texts.
//!
//! A caller names the allocator if nothing else determines it: `Abi::<Global>::abi64()`.

mod abis;
mod architectures;
mod environments;
mod families;
mod panics;
mod systems;
mod vendors;
