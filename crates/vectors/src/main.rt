// Runs the published vectors of the file that its argument names. A vector is the same where ours, both
// ways where there are two, and an independent SM4 give the published result.

#![tactic(auto)]

mod file;
mod independent;
mod ours;

use file::Vector;
use independent::Sm4;
use std::{env, fs, io};

// No more of the file is looked at.
const MOST: usize = 65_536;

// No more vectors are run; where a file has as many, they are not counted.
const MOST_VECTORS: u64 = 1000;

// Runs every vector of the file, and writes how each went, and all of them.
fn run_all(rt: &HostRuntime, bytes: &[u8]) -> io::Result<()> {
    let sm4 = Sm4::new();
    let mut rest = bytes;
    let mut differ: u64 = 0;
    for before in 0..MOST_VECTORS {
        let Some((vector, behind)) = Vector::read(rest) else {
            return println!(rt; "{before} compared {differ} differ");
        };
        rest = behind;
        let number = before + 1;
        if ours::gives(&vector) && sm4.gives(&vector) {
            println!(rt; "vector {number} same")?;
        } else {
            println!(rt; "vector {number} differ")?;
            differ += 1;
        }
    }
    Ok(())
}

fn main(rt: HostRuntime) -> io::Result<()> {
    let alloc = rt.alloc();
    let path = env::args(&rt)?.nth(1).unwrap_or(String::new(alloc));
    let mut file = fs::read(&rt, path.as_str())?;
    let looked_at = file.len().min(MOST);
    let bytes = &mut file.as_mut_slice()[..looked_at];
    let n = file::spelled(bytes);
    run_all(&rt, &bytes[..n])
}
