// The checkweigher: lines from standard input, each answered on standard output.
#![tactic(auto)]

mod input;

use input::serve_input;

fn main(rt: HostRuntime) {
    serve_input(&mut rt.stdin(), &mut rt.stdout());
}
