// Reads rule files from standard input, and prints a line for each with what reading says of it.
// A case is a length of three bytes, highest first, and then that many bytes of a rule file. The input ends after the last.
#![tactic(auto)]

use reading::{Listed, NumberedRule, Pattern, Refusal};
use std::io;
use testing::{Cases, answer_cases, read_bounded};

// The sum of the codes that a pattern covers.
fn sum_of_codes(pattern: Pattern) -> u64 {
    let mut sum = 0;
    for code in 0..=u8::MAX {
        if reading::covers(pattern, code) {
            sum += u64::from(code);
        }
    }
    sum
}

// A space and the lowest code of a pattern, or that there is none.
fn print_lowest(rt: &HostRuntime, lowest: Option<u8>) {
    let _ = match lowest {
        Some(code) => print!(rt; " {code}"),
        None => print!(rt; " none"),
    };
}

fn print_pattern(rt: &HostRuntime, listed: &Listed) {
    let Listed { pattern, extent } = *listed;
    let _ = print!(rt; " p {} {} {}", pattern.mask, pattern.first, pattern.last);
    print_lowest(rt, extent.lowest);
    let _ = print!(rt; " {} {}", extent.count, sum_of_codes(pattern));
}

fn print_patterns(rt: &HostRuntime, rule: &NumberedRule) {
    for listed in rule.patterns.iter().take(rule.npatterns) {
        print_pattern(rt, listed);
    }
}

fn print_nodes(rt: &HostRuntime, rule: &NumberedRule) {
    for node in rule.nodes.iter().take(rule.nnodes) {
        let _ = print!(rt; " n {} {}", node.kind(), node.argument());
    }
}

fn print_reading(rt: &HostRuntime, reading: &Result<NumberedRule, Refusal>) {
    match reading {
        Ok(rule) => {
            let _ = print!(rt; "accepted");
            print_patterns(rt, rule);
            print_nodes(rt, rule);
        }
        Err(refusal) => {
            let _ = print!(rt; "{refusal}");
        }
    }
    let _ = println!(rt);
}

// Where the rule file of a case goes.
#[derive(Drop)]
struct Space {
    rule: [u8; 131072],
}

impl Cases for Space {
    fn answer(&mut self, rt: &HostRuntime, _case: u64) -> io::Result<()> {
        let rule = read_bounded(rt, &mut self.rule)?;
        print_reading(rt, &reading::read_rule(rule));
        Ok(())
    }
}

fn main(rt: HostRuntime) {
    let mut space = Space { rule: [0; 131072] };
    answer_cases(&rt, &mut space);
}
