//! Triples of built-in targets.

/// macOS.
pub const DARWIN: &str = "aarch64-apple-darwin";

/// iOS.
pub const IOS: &str = "aarch64-apple-ios";

/// iOS as Mac Catalyst.
pub const MACABI: &str = "aarch64-apple-ios-macabi";

/// The simulator of iOS.
pub const SIM: &str = "aarch64-apple-ios-sim";

/// tvOS.
pub const TVOS: &str = "aarch64-apple-tvos";

/// The triples for which the digits of rows stand, in this order.
pub const TRIPLES: &[&str] = &[DARWIN, IOS, MACABI, SIM, TVOS];
