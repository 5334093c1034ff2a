//! Fields, pieces of lines, and text that is printed.

mod fields;
mod hex_digits;
mod printing;
