//! The words of the command line.

use std::alloc::Global;
use std::env::{self, Env, FillError};
use std::io;

// The arguments behind the program's name. The name is a path, whose bytes need be no text.
#[derive(Drop)]
struct BehindName<'a, R>(&'a R);

impl<R: Env> Env for BehindName<'_, R> {
    fn arg(&self, i: usize, buf: &mut [u8]) -> Result<usize, FillError> {
        match i.checked_add(1) {
            Some(place) => self.0.arg(place, buf),
            None => Err(FillError::NotPresent),
        }
    }

    fn var(&self, name: &str, buf: &mut [u8]) -> Result<usize, FillError> {
        self.0.var(name, buf)
    }

    fn var_at(&self, i: usize, buf: &mut [u8]) -> Result<usize, FillError> {
        self.0.var_at(i, buf)
    }
}

// The words, without the program's name. One that is no text is `InvalidData`.
pub(crate) fn words<R: Env + Alloc<A = Global>>(rt: &R) -> io::Result<Vec<String>> {
    Ok(env::args(&(BehindName(rt), rt.alloc()))?.collect(rt.alloc())?)
}
