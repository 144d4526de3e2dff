// The examples of document 01 and of requests P1, P4 and P5 that are run, and the errors seen in earlier code, each a line with the refusal's number and the
// numbers read.
#![tactic(auto)]

use meaning::{MOST_BYTES, MOST_NUMBERS, Place, Refusal};
use std::io;

fn end(rt: &impl Print) -> io::Result<()> {
    rt.println("")
}

// 0 and the number that was given, or the refusal's number.
fn answered(rt: &impl Print, answer: Result<u64, Refusal>) -> io::Result<()> {
    match answer {
        Ok(x) => print!(rt; " 0 {x}"),
        Err(e) => print!(rt; " {e}"),
    }
}

// The judge's number of a plan for a kind.
fn judged(rt: &impl Print, name: &str, kind: u8, plan: &[u8]) -> io::Result<()> {
    rt.print(name)?;
    match judge::judge(kind, plan) {
        Ok(()) => rt.print(" 0")?,
        Err(e) => print!(rt; " {e}")?,
    }
    end(rt)
}

// The worst size's number and its size.
fn worst(rt: &impl Print, name: &str, plan: &[u8], n: usize) -> io::Result<()> {
    rt.print(name)?;
    answered(rt, judge::worst_size(plan, n).map(|size| size as u64))?;
    end(rt)
}

// A body read strictly by a plan: the number, and the last number of the list.
fn read(rt: &impl Print, name: &str, plan: &[u8], body: &[u8], n: usize) -> io::Result<()> {
    rt.print(name)?;
    if body.len() <= MOST_BYTES && n <= MOST_NUMBERS {
        let mut work = [0u32; 7168];
        let answer = plan_read::read_list(plan, body, n, &mut work);
        answered(rt, answer.map(|count| count as u64))?;
    }
    end(rt)
}

// One number of a body by a code.
fn looked(
    rt: &impl Print,
    name: &str,
    code: u8,
    body: &[u8],
    n: usize,
    place: usize,
) -> io::Result<()> {
    rt.print(name)?;
    if body.len() <= MOST_BYTES && n <= MOST_NUMBERS && place < n {
        let answer = codes::lookup_code(code, body, n, Place { number: place });
        answered(rt, answer.map(u64::from))?;
    }
    end(rt)
}

// One number of a body by a plan.
fn looked_by(
    rt: &impl Print,
    name: &str,
    plan: &[u8],
    body: &[u8],
    n: usize,
    place: usize,
) -> io::Result<()> {
    rt.print(name)?;
    if body.len() <= MOST_BYTES && n <= MOST_NUMBERS && place < n {
        let answer = plan_look::lookup_list(plan, body, n, Place { number: place });
        answered(rt, answer.map(u64::from))?;
    }
    end(rt)
}

fn plans(rt: &impl Print) -> io::Result<()> {
    judged(
        rt,
        "16 16 16 1",
        0,
        &[16, 16, 16, 1, 0, 0, 0, 0, 0, 0, 0, 0, 0, 0, 0],
    )?;
    judged(
        rt,
        "16 16 16 16",
        0,
        &[16, 16, 16, 16, 0, 0, 0, 0, 0, 0, 0, 0, 0, 0, 0],
    )?;
    judged(
        rt,
        "17 1 of kind 0",
        0,
        &[17, 1, 0, 0, 0, 0, 0, 0, 0, 0, 0, 0, 0, 0, 0],
    )?;
    judged(
        rt,
        "17 1 of kind 1",
        1,
        &[17, 1, 0, 0, 0, 0, 0, 0, 0, 0, 0, 0, 0, 0, 0],
    )?;
    judged(
        rt,
        "kind 2",
        2,
        &[1, 0, 0, 0, 0, 0, 0, 0, 0, 0, 0, 0, 0, 0, 0],
    )?;
    worst(
        rt,
        "worst 18 4 5",
        &[18, 4, 5, 0, 0, 0, 0, 0, 0, 0, 0, 0, 0, 0, 0],
        1024,
    )?;
    worst(
        rt,
        "worst of 1025",
        &[1, 0, 0, 0, 0, 0, 0, 0, 0, 0, 0, 0, 0, 0, 0],
        1025,
    )?;
    Ok(())
}

fn bodies(rt: &impl Print) -> io::Result<()> {
    read(
        rt,
        "vbyte 80 00",
        &[1, 0, 0, 0, 0, 0, 0, 0, 0, 0, 0, 0, 0, 0, 0],
        &[0x80, 0x00],
        1,
    )?;
    read(
        rt,
        "vbyte fifth byte 10",
        &[1, 0, 0, 0, 0, 0, 0, 0, 0, 0, 0, 0, 0, 0, 0],
        &[0xff, 0xff, 0xff, 0xff, 0x10],
        1,
    )?;
    read(
        rt,
        "16 1 ending 00 02",
        &[16, 1, 0, 0, 0, 0, 0, 0, 0, 0, 0, 0, 0, 0, 0],
        &[0xe8, 0x03, 0, 0, 0, 2],
        2,
    )?;
    read(
        rt,
        "16 1 ending 01 02",
        &[16, 1, 0, 0, 0, 0, 0, 0, 0, 0, 0, 0, 0, 0, 0],
        &[0xe8, 0x03, 0, 0, 1, 2],
        2,
    )?;
    Ok(())
}

fn four_wise(rt: &impl Print, name: &str, body: &[u8], n: usize) -> io::Result<()> {
    read(
        rt,
        name,
        &[7, 0, 0, 0, 0, 0, 0, 0, 0, 0, 0, 0, 0, 0, 0],
        body,
        n,
    )
}

// Bodies of code 7: request P1's first examples, and a body with each fault.
fn batches(rt: &impl Print) -> io::Result<()> {
    four_wise(
        rt,
        "four-wise 3E BF",
        b"\x3e\xbf\x00\x04\x0c\x0a\x00\x00\x00\x40\x01\x02\x03\x00\x04",
        8,
    )?;
    four_wise(rt, "four-wise 03 00", &[3, 0], 1)?;
    four_wise(rt, "an unused field not 0", &[0x0b, 0], 1)?;
    four_wise(rt, "a byte too many", &[2, 0, 0], 1)?;
    four_wise(rt, "cut in masks", &[0xff], 5)?;
    four_wise(rt, "cut in data", &[0xff, 3, 1, 2, 3, 4], 5)?;
    four_wise(rt, "a byte left over", &[3, 0, 0], 1)?;
    Ok(())
}

// A batch of 16 with a 17th number behind it: a fault there is none to the first batch.
fn second_batch(rt: &impl Print) -> io::Result<()> {
    let two =
        b"\xff\xff\xff\xff\x00\x01\x02\x03\x04\x05\x06\x07\x08\x09\x0a\x0b\x0c\x0d\x0e\x0f\x03\x10";
    let cut =
        b"\xff\xff\xff\xff\x00\x01\x02\x03\x04\x05\x06\x07\x08\x09\x0a\x0b\x0c\x0d\x0e\x0f\x03";
    four_wise(rt, "17 four-wise", two, 17)?;
    looked(rt, "the 17th of 17 four-wise", 7, two, 17, 16)?;
    looked(rt, "the 16th, the second batch cut", 7, cut, 17, 15)?;
    looked(rt, "the 17th, the second batch cut", 7, cut, 17, 16)?;
    Ok(())
}

// A body of code 8: its strict reading, and one number looked up directly.
fn direct(rt: &impl Print, name: &str, body: &[u8], n: usize, place: usize) -> io::Result<()> {
    read(
        rt,
        name,
        &[8, 0, 0, 0, 0, 0, 0, 0, 0, 0, 0, 0, 0, 0, 0],
        body,
        n,
    )?;
    looked(rt, "- looked up", 8, body, n, place)
}

// Bodies of code 8: request P4's, and a body with each fault, some of which a lookup does not meet.
fn directly(rt: &impl Print) -> io::Result<()> {
    direct(
        rt,
        "direct 0E 00 04 0C 0A",
        &[4, 0, 0, 0, 0x0e, 0x00, 0x04, 0x0c, 0x0a],
        3,
        0,
    )?;
    direct(
        rt,
        "direct 45 FF 00 01",
        &[7, 0, 0, 0, 0x45, 0xff, 0x00, 0x01, 0xff, 0xff, 0xff, 0xff],
        3,
        2,
    )?;
    direct(rt, "a spare bit set", &[1, 0, 0, 0, 3, 0], 1, 0)?;
    direct(rt, "the last bit not set", &[2, 0, 0, 0, 1, 5, 6], 1, 0)?;
    direct(rt, "five bytes", &[5, 0, 0, 0, 0x10, 1, 2, 3, 4, 5], 1, 0)?;
    direct(rt, "a byte more than needed", &[2, 0, 0, 0, 2, 5, 0], 1, 0)?;
    direct(rt, "a one too few", &[1, 0, 0, 0, 1, 0], 2, 1)?;
    direct(rt, "a data byte too few", &[2, 0, 0, 0, 3, 5], 2, 0)?;
    direct(rt, "a byte behind the data", &[1, 0, 0, 0, 1, 5, 0], 1, 0)?;
    direct(
        rt,
        "4294967295 data bytes",
        &[255, 255, 255, 255, 1, 5],
        1,
        0,
    )?;
    direct(rt, "cut in the header", &[1, 0, 0], 1, 0)?;
    Ok(())
}

// 1,024 numbers of one byte: two stretches, each with its sum, true and then false.
fn sums(rt: &impl Print) -> io::Result<()> {
    let mut body = [255u8; 1160];
    body[0] = 0;
    body[1] = 4;
    body[2] = 0;
    body[3] = 0;
    body[132] = 0;
    body[133] = 2;
    body[134] = 0;
    body[135] = 4;
    body[147] = 11;
    body[649] = 7;
    direct(rt, "true sums", &body, 1024, 11)?;
    body[132] = 10;
    body[133] = 0;
    direct(
        rt,
        "a false sum leads to the stretch behind",
        &body,
        1024,
        11,
    )?;
    looked(rt, "- looked up before it", 8, &body, 1024, 9)?;
    body[134] = 5;
    body[135] = 0;
    direct(rt, "sums that fall lead behind the last", &body, 1024, 11)?;
    Ok(())
}

// Reading empty fields of the last group as numbers, one added to 4294967295 in 32 bits, 002's end bit, room left in a block.
fn earlier_errors(rt: &impl Print) -> io::Result<()> {
    looked(
        rt,
        "fifth of five in groups",
        2,
        &[0, 1, 2, 3, 4, 0, 5],
        5,
        4,
    )?;
    looked(rt, "an unused field set", 2, &[0, 1, 2, 3, 4, 4, 5], 5, 4)?;
    looked(
        rt,
        "gamma of 4294967295",
        5,
        &[0, 0, 0, 0, 0x80, 0, 0, 0, 0],
        1,
        0,
    )?;
    looked(
        rt,
        "delta of 4294967295",
        6,
        &[0x04, 0x20, 0, 0, 0, 0],
        1,
        0,
    )?;
    looked(rt, "vbyte 1 by the end bit of 002", 1, &[0x81], 1, 0)?;
    looked(
        rt,
        "past a block with room",
        3,
        &[0xe0, 1, 2, 3, 4, 5, 0, 0, 0, 0xfe, 6, 0, 0, 0, 0, 0, 0, 0],
        6,
        5,
    )?;
    read(
        rt,
        "a block with room",
        &[3, 0, 0, 0, 0, 0, 0, 0, 0, 0, 0, 0, 0, 0, 0],
        &[0xe0, 1, 2, 3, 4, 5, 0, 0, 0, 0xfe, 6, 0, 0, 0, 0, 0, 0, 0],
        6,
    )?;
    Ok(())
}

// Request P5: a body that is cut short is told from one that breaks another rule, by what is met first.
fn sorts(rt: &impl Print) -> io::Result<()> {
    let vbyte = [1, 0, 0, 0, 0, 0, 0, 0, 0, 0, 0, 0, 0, 0, 0];
    let groups = [2, 0, 0, 0, 0, 0, 0, 0, 0, 0, 0, 0, 0, 0, 0];
    let gamma = [5, 0, 0, 0, 0, 0, 0, 0, 0, 0, 0, 0, 0, 0, 0];
    let delta = [6, 0, 0, 0, 0, 0, 0, 0, 0, 0, 0, 0, 0, 0, 0];
    read(rt, "vbyte 80", &vbyte, &[0x80], 1)?;
    read(
        rt,
        "vbyte four bytes of five",
        &vbyte,
        &[0xff, 0xff, 0xff, 0xff],
        1,
    )?;
    read(rt, "a byte behind a number", &vbyte, &[5, 0], 1)?;
    read(rt, "data missed before an unused field", &groups, &[4], 1)?;
    read(
        rt,
        "data missed before a number too long",
        &groups,
        &[5, 7, 0, 1],
        2,
    )?;
    read(rt, "gamma of 32 zeros", &gamma, &[0, 0, 0, 0], 1)?;
    read(rt, "gamma of 33 zeros", &gamma, &[0, 0, 0, 0, 0], 1)?;
    read(rt, "delta of a length cut", &delta, &[4], 1)?;
    read(rt, "delta of a length of 34", &delta, &[4, 0x40], 1)?;
    Ok(())
}

// A run stage's values are read before its lengths, and looked up after them; below differences all is taken before anything is summed.
fn orders(rt: &impl Print) -> io::Result<()> {
    let runs = [18, 1, 1, 0, 0, 0, 0, 0, 0, 0, 0, 0, 0, 0, 0];
    let both = [1, 0, 0, 0, 1, 0, 0, 0, 0x80, 0x80, 0];
    read(rt, "values cut, lengths broken", &runs, &both, 1)?;
    looked_by(rt, "- looked up", &runs, &both, 1, 0)?;
    let under = [17, 18, 1, 1, 0, 0, 0, 0, 0, 0, 0, 0, 0, 0, 0];
    let two = [2, 0, 0, 0, 1, 0, 0, 0, 0x80, 1, 0x80, 0];
    looked_by(rt, "17 18 1 1, a value cut", &under, &two, 4, 0)?;
    looked_by(rt, "17 18 1 1, a length broken", &under, &two, 4, 1)?;
    let summed = [17, 16, 1, 0, 0, 0, 0, 0, 0, 0, 0, 0, 0, 0, 0];
    let large = [255, 255, 255, 255, 1, 0x80];
    looked_by(rt, "17 16 1, a sum too large", &summed, &large, 2, 0)?;
    looked_by(rt, "17 16 1, then a number cut", &summed, &large, 2, 1)?;
    Ok(())
}

fn main(rt: HostRuntime) -> io::Result<()> {
    plans(&rt)?;
    bodies(&rt)?;
    batches(&rt)?;
    second_batch(&rt)?;
    directly(&rt)?;
    sums(&rt)?;
    sorts(&rt)?;
    orders(&rt)?;
    earlier_errors(&rt)?;
    Ok(())
}
