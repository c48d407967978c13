// Metrology staff's program: lines from standard input that give calls, and on standard output the possible outcomes of each.
#![tactic(auto)]

mod input;
mod memory;
mod session;

use input::serve_input;

fn main(rt: HostRuntime) {
    serve_input(&mut rt.stdin(), &mut rt.stdout());
}
