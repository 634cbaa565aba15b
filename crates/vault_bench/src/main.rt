//! The work that the benchmarks time: `vault_bench WORK TIMES` or `vault_bench WORK LENGTH TIMES`
//! does a part of the work on a vault, TIMES times, and prints the last result.
//!
//! - `counter-mode` enciphers LENGTH zero bytes;
//! - `read` reads the envelope on standard input, and `write` writes one of LENGTH bytes of
//!   ciphertext;
//! - `derive` derives a vault's keys, and `compressions` runs 60,000 compressions of SHA-256, as
//!   many as a derivation;
//! - `tag` computes the tag of a MiB.
#![tactic(auto)]

mod counter_mode;
mod envelope;
mod key_derivation;

use std::io::ErrorKind;
use std::{env, io};

fn usage() -> io::Error {
    io::Error::new(
        ErrorKind::InvalidInput,
        "usage: vault_bench read|derive|compressions|tag TIMES, \
            or vault_bench counter-mode|write LENGTH TIMES",
    )
}

fn run(rt: &HostRuntime, work: &str, times: u32) -> io::Result<()> {
    match work {
        "read" => println!(rt; "{}", envelope::read(rt, times)?),
        "derive" => println!(rt; "{:?}", key_derivation::derive_keys(times)),
        "compressions" => println!(rt; "{:?}", key_derivation::compress(times)),
        "tag" => println!(rt; "{:?}", key_derivation::tags(rt.alloc(), times)?),
        _ => Err(usage()),
    }
}

fn run_over(rt: &HostRuntime, work: &str, length: usize, times: u32) -> io::Result<()> {
    match work {
        "counter-mode" => counter_mode::encipher(rt, length, times),
        "write" => println!(rt; "{}", envelope::write(rt.alloc(), length, times)?),
        _ => Err(usage()),
    }
}

fn main(rt: HostRuntime) -> io::Result<()> {
    let words: Vec<String> = env::args(&rt)?.collect(rt.alloc())?;
    match words.as_slice() {
        [_, work, times] => {
            let Ok(times) = times.parse() else {
                return Err(usage());
            };
            run(&rt, work.as_str(), times)
        }
        [_, work, length, times] => {
            let (Ok(length), Ok(times)) = (length.parse(), times.parse()) else {
                return Err(usage());
            };
            run_over(&rt, work.as_str(), length, times)
        }
        _ => Err(usage()),
    }
}
