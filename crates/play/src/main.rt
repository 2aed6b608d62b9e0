// Reads a script on standard input, and writes what it prints.
#![tactic(auto)]

use std::io::{Input, Read};

// A read answers 0 at the end of the input alone: where one failed, as in a folder, the next fails too.
fn cut_off(rt: &impl Input) -> bool {
    let mut next = [0u8; 1];
    match rt.reader().read(&mut next) {
        Ok(n) => n != 0,
        Err(_) => true,
    }
}

// Of a script that can't be read to its end nothing is written; every other one has a listing.
fn play_into(rt: &impl Input, script: &mut [u8], out: &mut [u8]) {
    let n = io::read_full(0, script);
    if n < script.len() {
        if cut_off(rt) {
            return;
        }
    }
    match listing::list_script(&script[..n], out) {
        Ok(k) => {
            if k <= out.len() {
                io::write_all(1, &out[..k]);
            }
        }
        Err(_) => {}
    }
}

// A byte more than a script may have, and the longest listing. As slices they would ask for a proof
// of their lengths, and the second is too long for one.
fn lend(rt: &impl Input, script: &mut [u8; 60001], out: &mut [u8; 4080204]) {
    play_into(rt, script, out)
}

fn main(rt: HostRuntime) {
    let mut script = [0u8; 60001];
    let mut out = [0u8; 4080204];
    lend(&rt, &mut script, &mut out);
}
