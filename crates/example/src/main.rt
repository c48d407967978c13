// A client of the library: it owns all that the controller needs, weighs one box and prints the sheet.
#![tactic(auto)]

mod weighing;

use blocks::write_out;
use controller::ANSWER_ROOM;

fn main(rt: HostRuntime) {
    let mut out = [0u8; ANSWER_ROOM];
    let length = weighing::print_one_box(&mut out);
    write_out(&mut rt.stdout(), &out[..length]);
}
