#![tactic(auto)]

use std::io;
use test_walker::Host;

fn main(rt: HostRuntime) -> io::Result<()> {
    let mut input = test_lines::large_buffer();
    let mut output = test_lines::large_buffer();
    let mut table = test_walker::longest_table();
    test_lines::serve(
        &mut Host::new(&mut table),
        &mut rt.stdin(),
        &mut rt.stdout(),
        &mut input,
        &mut output,
    )
}
