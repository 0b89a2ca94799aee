// The text's layers: lines of digits, bytes, fields and frames, read and written.
#![tactic(auto)]

pub mod bytes;
pub mod fault_line;
pub mod frame;
pub mod home_frame;
pub mod kind;
pub mod output;
pub mod reader;
pub mod text;
pub mod words;
