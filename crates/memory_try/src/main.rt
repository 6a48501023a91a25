// Calls each function of memory at places within, at the end of and past a slice, and writes what comes of it.
#![tactic(auto)]

use std::io::Write;

fn text(rt: &HostRuntime, bytes: &[u8]) {
    let _ = rt.stdout().write_all(bytes);
    let _ = println!(rt; "");
}

fn gets(rt: &HostRuntime, s: &[u8], at: usize) {
    let _ = println!(rt; "{}", memory::get16(s, at));
    let _ = println!(rt; "{}", memory::get32(s, at));
    let _ = println!(rt; "{}", memory::get64(s, at));
}

fn puts(rt: &HostRuntime, at: usize) {
    let mut s = *b"..........";
    memory::put16(&mut s, at, 16961);
    text(rt, &s);
    memory::put32(&mut s, at, 1684234849);
    text(rt, &s);
    memory::put64(&mut s, at, 4123106164818064178);
    text(rt, &s);
}

fn copies(rt: &HostRuntime, at: usize) {
    let mut s = *b"0123456789";
    memory::copy(&mut s, at, b"abc");
    text(rt, &s);
}

fn slides(rt: &HostRuntime, from: usize, to: usize, n: usize) {
    let mut s = *b"0123456789";
    memory::slide(&mut s, from, to, n);
    text(rt, &s);
}

fn clears(rt: &HostRuntime) {
    let mut long = [7u8; 65540];
    memory::clear(&mut long);
    let _ = println!(rt; "{}", memory::get64(&long, 0));
    let _ = println!(rt; "{}", memory::get64(&long, 65532));
    let mut short = [7u8; 65535];
    memory::clear(&mut short);
    let _ = println!(rt; "{}", memory::get16(&short, 0));
}

fn parts(rt: &HostRuntime, at: usize, len: usize) {
    text(rt, memory::part(b"0123456789", at, len));
}

fn main(rt: HostRuntime) {
    let s = [1u8, 2, 3, 4, 5, 6, 7, 8, 255, 254];
    for at in [0, 2, 3, 8, 9, usize::MAX] {
        gets(&rt, &s, at);
    }
    for at in [0, 2, 3, usize::MAX] {
        puts(&rt, at);
    }
    for at in [0, 7, 8, usize::MAX] {
        copies(&rt, at);
    }
    for (from, to, n) in [
        (0, 3, 7),
        (3, 0, 7),
        (2, 2, 8),
        (0, 4, 7),
        (4, 0, 7),
        (0, 0, usize::MAX),
    ] {
        slides(&rt, from, to, n);
    }
    clears(&rt);
    for (at, len) in [(2, 3), (10, 0), (0, 10), (9, 2), (11, 0), (1, usize::MAX)] {
        parts(&rt, at, len);
    }
}
