//! Sinks to print to.

use batch_io::MemorySink;
use std::alloc::Global;
use std::process::Abort;

// A sink with so much room that takes 100 bytes a call. The call of this number fails, and none
// where it is 0.
pub fn sink_of(rt: &impl Abort, alloc: Global, room: usize, failing: u32) -> MemorySink {
    let failing = Vec::from_array(alloc, [failing]).expect(rt, "memory");
    let room = vec![in alloc; 0; room].expect(rt, "memory");
    MemorySink::new(room, 100, failing)
}
