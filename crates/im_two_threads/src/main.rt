//! Two threads place, make durable, link and index over the words of one tip, and the words are told at the end: what is
//! proved of their calls holds where both have returned, and this shows that they return.
#![tactic(auto)]

mod words;

use std::io;

fn main(rt: HostRuntime) -> io::Result<()> {
    let [placed, durable, linked, indexed] = words::run(&rt, rt.alloc())?;
    print!(rt; "placed {placed} durable {durable} linked {linked} indexed {indexed}\n")
}
