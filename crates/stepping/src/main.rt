// Writes sheets from lists of orders and steps through their columns, call by call.
#![tactic(auto)]

use meaning::Refusal;
use orders::Order;
use std::io;

fn refused(rt: &impl Print, e: Refusal) -> io::Result<()> {
    println!(rt; "refused {e}")
}

fn found(rt: &impl Print, f: Result<u32, Refusal>) -> io::Result<()> {
    match f {
        Ok(x) => println!(rt; "{x}"),
        Err(e) => refused(rt, e),
    }
}

fn bytes(rt: &impl Print, t: &[u8]) -> io::Result<()> {
    for byte in t {
        print!(rt; " {byte}")?;
    }
    rt.println("")
}

// The calls of a reader on one column, and two past its end.
fn step_through(rt: &impl Print, sheet: &[u8], column: usize) -> io::Result<()> {
    println!(rt; "column {column}")?;
    for k in 0..5usize {
        print!(rt; "{k} ")?;
        let answer = reader::nth_call(sheet, column, k);
        found(rt, answer)?;
    }
    Ok(())
}

// The first three calls of one reader.
fn first_calls(rt: &impl Print, sheet: &[u8], column: usize) -> io::Result<()> {
    let calls = reader::first_three(sheet, column);
    let first = calls.first;
    let second = calls.second;
    let third = calls.third;
    found(rt, first)?;
    found(rt, second)?;
    found(rt, third)
}

fn plan_of(first: u8, second: u8) -> [u8; 15] {
    [first, second, 0, 0, 0, 0, 0, 0, 0, 0, 0, 0, 0, 0, 0]
}

// A sheet's bytes, its two columns call by call, and a column that is not there.
fn show(rt: &impl Print, sheet: &[u8]) -> io::Result<()> {
    bytes(rt, sheet)?;
    step_through(rt, sheet, 0)?;
    step_through(rt, sheet, 1)?;
    first_calls(rt, sheet, 2)
}

// A sheet of an edition, of two columns of three numbers: what was written, call by call, or the refusal and the output that it left.
fn write_and_step(
    rt: &impl Print,
    edition: u8,
    kind: u8,
    plan: [u8; 15],
    joined: &[u32],
    out: &mut [u8],
) -> io::Result<()> {
    let mut work = [0u32; 21];
    let jobs = Order {
        kind,
        plan,
        count: 3,
    };
    let endings = Order {
        kind: 0,
        plan: plan_of(0, 0),
        count: 3,
    };
    let answer = orders::write_two(edition, jobs, endings, joined, &mut work, out);
    match answer {
        Err(e) => {
            refused(rt, e)?;
            bytes(rt, out)?;
        }
        Ok(n) => {
            if n <= out.len() {
                show(rt, &out[..n])?;
            }
        }
    }
    Ok(())
}

// Refused, each by another number; the output keeps its bytes.
fn refused_writes(rt: &impl Print) -> io::Result<()> {
    let joined = [1000u32, 1002, 1300, 0, 256, 3];
    let falling = [1000u32, 999, 1300, 0, 256, 3];
    let short = [1000u32, 1002, 1300, 0, 256];
    let equal = [1000u32, 1000, 1300, 0, 256, 3];
    let mut out = [7u8; 4];
    write_and_step(rt, 3, 1, plan_of(9, 0), &joined, &mut out)?;
    write_and_step(rt, 1, 2, plan_of(1, 0), &joined, &mut out)?;
    write_and_step(rt, 1, 1, plan_of(17, 1), &short, &mut out)?;
    write_and_step(rt, 1, 1, plan_of(9, 0), &joined, &mut out)?;
    write_and_step(rt, 1, 0, plan_of(17, 1), &joined, &mut out)?;
    write_and_step(rt, 1, 1, plan_of(0, 0), &falling, &mut out)?;
    write_and_step(rt, 2, 1, plan_of(0, 0), &equal, &mut out)?;
    write_and_step(rt, 1, 1, plan_of(0, 0), &equal, &mut out)?;
    Ok(())
}

fn main(rt: HostRuntime) -> io::Result<()> {
    let joined = [1000u32, 1002, 1300, 0, 256, 3];
    let falling = [1000u32, 999, 1300, 0, 256, 3];
    let mut out = [0u8; 128];
    write_and_step(&rt, 1, 1, plan_of(17, 4), &joined, &mut out)?;
    write_and_step(&rt, 2, 0, plan_of(0, 0), &falling, &mut out)?;
    refused_writes(&rt)?;
    first_calls(&rt, b"not a sheet", 0)
}
