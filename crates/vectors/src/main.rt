// Published test vectors of FNV-1a 64, from Landon Noll's suite. Writes a line for each: the sum in
// hex and the bytes. The file stdout holds the published sums.
#![tactic(auto)]

use std::io;

const VECTORS: [&[u8]; 34] = [
    b"",
    b"a",
    b"b",
    b"c",
    b"d",
    b"e",
    b"f",
    b"fo",
    b"foo",
    b"foob",
    b"fooba",
    b"foobar",
    // The same with a zero byte behind.
    b"\0",
    b"a\0",
    b"b\0",
    b"c\0",
    b"d\0",
    b"e\0",
    b"f\0",
    b"fo\0",
    b"foo\0",
    b"foob\0",
    b"fooba\0",
    b"foobar\0",
    // Bytes with the high bit set.
    b"\xff\x00\x00\x01",
    b"\x01\x00\x00\xff",
    b"\xff\x00\x00\x02",
    b"\x02\x00\x00\xff",
    b"\xff\x00\x00\x03",
    b"\x03\x00\x00\xff",
    b"\xff\x00\x00\x04",
    b"\x04\x00\x00\xff",
    // Texts.
    b"chongo was here!\n",
    b"127.0.0.1",
];

// A byte: itself if it is printable, else \x and its two hex digits.
fn show(rt: &impl Print, b: u8) -> io::Result<()> {
    if b.is_ascii_graphic() || b == b' ' {
        rt.write_all(&[b])
    } else {
        print!(rt; "\\x{b:02x}")
    }
}

// One line.
fn vector(rt: &impl Print, s: &[u8]) -> io::Result<()> {
    let sum = fnv::sum_from(fnv::START, s);
    print!(rt; "{sum:016x} \"")?;
    for &b in s {
        show(rt, b)?;
    }
    rt.write_all(b"\"\n")
}

fn main(rt: HostRuntime) -> io::Result<()> {
    for s in VECTORS {
        vector(&rt, s)?;
    }
    Ok(())
}
