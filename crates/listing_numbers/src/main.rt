// Numbers at the borders of what the listing prints, one to a line.
#![tactic(auto)]

use listing::output::Output;
use std::io;

fn main(rt: HostRuntime) -> io::Result<()> {
    let borders = [
        0, 9, 10, 99, 100, 10000, 10001, 65535, 99999, 100000, 100001, 100010, 999999, 1000000,
        1000000000, 4200000042, 4294967295,
    ];
    for n in &borders {
        line(&rt, *n)?;
    }
    Ok(())
}

// A number has at most ten digits, so that its line fits the buffer.
fn line(rt: &impl Print, n: u32) -> io::Result<()> {
    let mut buffer = [0u8; 11];
    let mut out = Output::new(&mut buffer);
    out.put_number(n);
    out.put(b"\n");
    rt.write_all(out.written())
}
