//! The limits of a stream of lines.

/// Maximum number of bytes in the line of a command.
pub const MAX_LINE_BYTES: usize = 256;

/// The number of bytes without a line feed that ends the connection.
pub const LONG_LINE_BYTES: usize = 65_536;

/// Maximum number of bytes in the body of a load.
pub const MAX_BODY_BYTES: u64 = 1_048_576;

/// Maximum number of items that are answered during a connection. After them comes the last fault.
pub const MAX_ITEMS: u64 = 1_000_000;
