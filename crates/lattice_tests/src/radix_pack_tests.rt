mod digits;
mod elements;
mod small;

use std::alloc::Global;
use std::process::Abort;

// Equal pieces one after another: how many, and the bytes of one.
type Runs = &'static [(usize, &'static str)];

const TOOL: &str = "python3 tools/vectors/radix_encode.py";

fn bytes_of(rt: &impl Abort, alloc: Global, runs: Runs) -> Vec<u8> {
    let mut bytes = Vec::new(alloc);
    for (count, piece) in runs {
        let piece = hex::decode(alloc, *piece).expect(rt, "hex");
        for _ in 0..*count {
            bytes.extend_from_slice(&piece).expect(rt, "memory");
        }
    }
    bytes
}
