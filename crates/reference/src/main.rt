// Holds the roll or the refusal of each plate of the reference collection against its `.expected` file.
#![tactic(auto)]

mod answer;

use answer::answer_of;
use plate_file::parse_plate;
use roll::Roll;
use std::{env, fs};

// A number that tells the words of a stream and their order:
// each word, one more than it is so that zeros count, times its place from 1, all added up modulo 2^32.
fn weight(words: &[u16]) -> usize {
    let sum = words.iter().enumerate().fold(0usize, |sum, (index, word)| {
        sum.wrapping_add((usize::from(*word) + 1).wrapping_mul(index + 1))
    });
    sum % (1 << 32)
}

// Whether the plate is as expected. One without an `.expected` file beside it is a malformed one: what is said of it is printed.
fn print_plate(rt: &HostRuntime, roll: &mut Roll, name: &str) -> anyhow::Result<bool> {
    let heap = rt.alloc();
    let bytes = fs::read(rt, format!(in heap; "{name}.plate")?)?;
    let plate = match parse_plate(heap, bytes.as_slice()) {
        Ok(plate) => plate,
        Err(fault) => {
            println!(rt; "{name} malformed {fault}")?;
            return Ok(true);
        }
    };
    let answer = answer_of(heap, roll, &plate)?;
    let dc = weight(plate.dc.as_slice());
    let ac = weight(plate.ac.as_slice());
    // Before the next file is read: it can be as large as the plate.
    drop(plate);
    let expected = fs::read(rt, format!(in heap; "{name}.expected")?)?;
    let equal = answer.is_in(expected.as_slice());
    let word = if equal { "equal" } else { "differs" };
    println!(rt; "{name} {word} dc {dc} ac {ac}")?;
    Ok(equal)
}

fn run(rt: &HostRuntime) -> anyhow::Result<()> {
    let mut roll = Roll::new(rt.alloc())?;
    let mut args = env::args(rt)?;
    let _program = args.next();
    let plates = args.len();
    // Counted in the loop, which a failed read or write ends: no chain would be plainer.
    let mut fine = 0usize;
    for name in args {
        if print_plate(rt, &mut roll, name.as_str())? {
            fine = fine.saturating_add(1);
        }
    }
    println!(rt; "{plates} plates: {fine} as expected")?;
    Ok(())
}

fn main(rt: HostRuntime) -> anyhow::Result<()> {
    run(&rt)
}
