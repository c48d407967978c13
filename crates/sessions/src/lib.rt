// The lines of text in a block of input, each answered in its turn.
//
// `serve_block` answers the lines that are complete, one behind the other from the front of the output on, as many as have
// room for their answers. What it hands back says where what is left of the block begins and where the answers end. With
// too little room for one answer nothing is done.
#![tactic(auto)]

mod block;

pub use block::{Block, serve_block};
