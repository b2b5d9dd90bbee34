// Reads phone models, lists of pairs of states and rules from standard input, and prints a line for each case: whether the list matches the two models, and
// what is judged of both under each of the rules.
// A case is the lengths of the first model, of the second and of the list, and the number of rules, then the two model files and the list, and then each rule: its
// length and its file. All numbers have three bytes, highest first. The input ends after the last case.
#![tactic(auto)]

use models::MatchError;
use std::io;
use testing::{Cases, answer_cases, read_bounded, read_size, read_whole, show_judged};

// A case has no more rules.
const RULES: usize = 255;

fn print_matched(rt: &HostRuntime, matched: Result<bool, MatchError>) {
    let _ = match matched {
        Ok(true) => print!(rt; "yes"),
        Ok(false) => print!(rt; "no"),
        Err(MatchError::First(refusal)) => print!(rt; "first {refusal}"),
        Err(MatchError::Second(refusal)) => print!(rt; "second {refusal}"),
        Err(MatchError::Pairs(refusal)) => print!(rt; "pairs {refusal}"),
    };
}

// Judges both models under the next rule.
fn judge_rule(
    rt: &HostRuntime,
    space: &mut [u8],
    first: &[u8],
    second: &[u8],
    table: &mut [u16],
) -> io::Result<()> {
    let rule = read_bounded(rt, space)?;
    let _ = print!(rt; " ");
    show_judged(rt, models::judge(rule, first, table));
    let _ = print!(rt; " ");
    show_judged(rt, models::judge(rule, second, table));
    Ok(())
}

// Judges both models under so many rules.
fn judge_rules(
    rt: &HostRuntime,
    count: usize,
    first: &[u8],
    second: &[u8],
    table: &mut [u16],
) -> io::Result<()> {
    let mut space = [0u8; 1024];
    for _ in 0..count {
        judge_rule(rt, &mut space, first, second, table)?;
    }
    Ok(())
}

// Answers the next case. Its line ends also where a rule can't be read.
fn answer_case(
    rt: &HostRuntime,
    first: &mut [u8],
    second: &mut [u8],
    pairs: &mut [u8],
    table: &mut [u16],
) -> io::Result<()> {
    let first_len = read_size(rt, first.len())?;
    let second_len = read_size(rt, second.len())?;
    let pairs_len = read_size(rt, pairs.len())?;
    let rules = read_size(rt, RULES)?;
    let first = &mut first[..first_len];
    let second = &mut second[..second_len];
    let pairs = &mut pairs[..pairs_len];
    read_whole(rt, first)?;
    read_whole(rt, second)?;
    read_whole(rt, pairs)?;
    print_matched(rt, models::match_models(first, second, pairs));
    let judged = judge_rules(rt, rules, first, second, table);
    let _ = println!(rt);
    judged
}

// Where the models and the pairs of a case go, and the table that is filled.
#[derive(Drop)]
struct Spaces {
    first: [u8; 4096],
    second: [u8; 4096],
    pairs: [u8; 16384],
    table: [u16; 262144],
}

impl Cases for Spaces {
    fn answer(&mut self, rt: &HostRuntime, _case: u64) -> io::Result<()> {
        let Spaces {
            first,
            second,
            pairs,
            table,
        } = self;
        answer_case(rt, first, second, pairs, table)
    }
}

fn main(rt: HostRuntime) {
    let mut spaces = Spaces {
        first: [0; 4096],
        second: [0; 4096],
        pairs: [0; 16384],
        table: [0; 262144],
    };
    answer_cases(&rt, &mut spaces);
}
