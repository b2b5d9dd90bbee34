// Reads rules and scans from standard input, and prints a line for each case: why a scan is dropped after the kept ones.
// A case is a rule's length and the number of kept scans, each as three bytes, highest first, then the rule file, the kept scans and the
// scan. The input ends after the last.
#![tactic(auto)]

use reading::Refusal;
use std::io;
use testing::{Cases, answer_cases, read_byte, read_size, read_whole};

// A case has no longer rule, and no more kept scans.
const MOST: usize = 1024;

fn print_reason(rt: &HostRuntime, reason: Result<Option<u8>, Refusal>) {
    let _ = match reason {
        Ok(None) => println!(rt; "kept"),
        Ok(Some(node)) => println!(rt; "node {node}"),
        Err(refusal) => println!(rt; "{refusal}"),
    };
}

// Answers the next case.
fn answer_case(rt: &HostRuntime) -> io::Result<()> {
    let mut rule = [0u8; MOST];
    let mut kept = [0u8; MOST];
    let rule_len = read_size(rt, MOST)?;
    let kept_len = read_size(rt, MOST)?;
    let rule = &mut rule[..rule_len];
    let kept = &mut kept[..kept_len];
    read_whole(rt, rule)?;
    read_whole(rt, kept)?;
    print_reason(rt, synthesis::explain(rule, kept, read_byte(rt)));
    Ok(())
}

// The cases need no space that outlasts them.
#[derive(Drop)]
struct Reasons;

impl Cases for Reasons {
    fn answer(&mut self, rt: &HostRuntime, _case: u64) -> io::Result<()> {
        answer_case(rt)
    }
}

fn main(rt: HostRuntime) {
    answer_cases(&rt, &mut Reasons);
}
