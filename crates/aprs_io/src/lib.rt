//! Inputs under a limit and output through a buffer, over devices that count their failed calls;
//! and bytes that are copied, cut, shown, and read or written as hexadecimal digits.
#![tactic(auto)]

mod byte_vectors;
mod cut;
mod device;
mod held_bytes;
mod hexadecimal;
mod input;
pub mod laws;
mod outlet;
mod shown;

pub use byte_vectors::{copy_bytes, push_all, put};
pub use cut::cut_at;
pub use device::{Counted, DeviceFault, MAX_TRIES, WriteFault, send};
pub use held_bytes::MAX_HELD;
pub use hexadecimal::{decode_into, decode_lower_into, put_hex};
pub use input::{InputEnd, MAX_INPUT, read_some};
pub use outlet::Outlet;
pub use shown::{are_shown, put_shown, shown_byte};
