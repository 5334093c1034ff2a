//! Batch texts whose lanes add and retire contexts, and replies to them.

mod bad_texts;
mod printing;
mod reading;
