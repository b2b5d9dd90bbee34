// A test program: the function for C that matches two models, called on lists of pairs that match a drawing and a simplified model and that don't, and on input
// that is refused. Each call prints its answer and the two numbers that it handed back.
#![tactic(auto)]

// A drawing that goes to and fro between two states with code 5, and a simplified one that stays where it is.
const DRAWN: [u8; 10] = [16, 2, 17, 0, 5, 1, 17, 1, 5, 0];

const SIMPLIFIED: [u8; 6] = [16, 1, 17, 0, 5, 0];

// The pairs that match them, and lists that lack the second pair, end inside a pair, and name a state that the drawing doesn't have.
const MATCHING: [u8; 4] = [0, 0, 1, 0];

const NOTHING: [u8; 0] = [];

const STARTS: [u8; 2] = [0, 0];

const HALF: [u8; 1] = [0];

const UNKNOWN: [u8; 2] = [2, 0];

fn match_models(rt: &HostRuntime, first: &[u8], second: &[u8], pairs: &[u8]) {
    let mut value = 99;
    let mut input = 99;
    let number = boundary::jarveun_match(first, second, pairs, &mut value, &mut input);
    let _ = println!(rt; "match {number} {value} {input}");
}

fn main(rt: HostRuntime) {
    match_models(&rt, &DRAWN, &SIMPLIFIED, &MATCHING);
    match_models(&rt, &DRAWN, &SIMPLIFIED, &STARTS);
    match_models(&rt, &DRAWN, &SIMPLIFIED, &NOTHING);
    match_models(&rt, &DRAWN, &SIMPLIFIED, &HALF);
    match_models(&rt, &DRAWN, &SIMPLIFIED, &UNKNOWN);
    match_models(&rt, &NOTHING, &SIMPLIFIED, &STARTS);
    match_models(&rt, &DRAWN, &NOTHING, &STARTS);
}
