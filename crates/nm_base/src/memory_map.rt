//! The mote's memory map.

/// The first port, which is read and written by words alone.
pub const PORTS_START: u16 = 0x0100;

/// The address behind the ports.
pub const PORTS_END: u16 = 0x0200;

/// The port of the mask of lines.
pub const ENABLE: u16 = 0x0100;

/// The port of the requests that wait.
pub const PENDING: u16 = 0x0102;

/// The port that stops the mote when a word is written to it.
pub const FAULT: u16 = 0x0104;

/// The first byte of RAM.
pub const RAM_START: u16 = 0x1100;

/// The address behind RAM, where the stack begins.
pub const RAM_END: u16 = 0x3900;

/// The bytes of RAM, which hold data and stack.
pub const RAM_BYTES: u32 = 10_240;

/// The first byte of code.
pub const CODE_START: u16 = 0x4000;

/// The bytes of code, from `CODE_START` to the vectors.
pub const CODE_BYTES: u32 = 49_120;

/// The address of vector 0; vector k stands 2 * k bytes behind it.
pub const VECTORS: u16 = 0xFFE0;

/// The number of vectors, of which the last is that of reset.
pub const VECTOR_COUNT: u16 = 16;
