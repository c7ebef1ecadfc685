#![tactic(auto)]

use std::io;
use test_lines::Packets;

fn main(rt: HostRuntime) -> io::Result<()> {
    let mut input = test_lines::large_buffer();
    let mut output = test_lines::large_buffer();
    test_lines::serve(
        &mut Packets,
        &mut rt.stdin(),
        &mut rt.stdout(),
        &mut input,
        &mut output,
    )
}
