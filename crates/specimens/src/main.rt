// Runs every specimen of 01 ("Specimens on both sides") through the library, and writes a line for each. What is written is compared with
// the file `stdout`, so that the contracts of these private functions need not speak of it.
#![tactic(auto)]

ghost use Rattle.std.specs.Prelude.{◌<◌};

use address::{Address, Refusal};
use blocks::read_block;
use loose::read_loose;
use network::{read_network, write_network};
use normal::write_address;
use octets::read_octets;
use ranges::range_blocks;
use std::io::{Stdout, Write};
use text::read_address;

// ---- parts of a line

fn say(mut to: Stdout, text: &[u8]) {
    let _ = to.write_all(text);
}

// What is asked, and the input.
fn say_asked(to: Stdout, kind: &[u8], text: &[u8]) {
    say(to, kind);
    say(to, text);
    say(to, b" -> ");
}

fn say_number(to: Stdout, name: &[u8], n: usize) {
    say(to, name);
    let _ = print!(to; "{n}");
}

fn say_byte(to: Stdout, byte: u8) {
    let _ = print!(to; "{byte:02x}");
}

// The first `count` of so many bytes, each in two hex digits, with a space before every `width` of them.
fn say_hex(to: Stdout, bytes: &[u8], count: usize, width: usize)
    requires { 0 < width }
{
    if bytes.len() < count {
        return;
    }
    for (i, &byte) in bytes[..count].iter().enumerate() {
        if i % width == 0 {
            say(to, b" ");
        }
        say_byte(to, byte);
    }
}

// ---- ends of a line

fn end_refused(to: Stdout, why: Refusal) {
    say_number(to, b"refused ", u8::from(why) as usize);
    say(to, b"\n");
}

// What a writer left in `out`.
fn end_written(to: Stdout, written: Result<usize, Refusal>, out: &[u8]) {
    match written {
        Ok(count) => {
            if count <= out.len() {
                say(to, &out[..count]);
            }
            say(to, b"\n");
        }
        Err(e) => end_refused(to, e),
    }
}

// The normal text of the address that was read.
fn end_reading(to: Stdout, reading: Result<Address, Refusal>) {
    match reading {
        Ok(address) => {
            let mut out = [0u8; 39];
            let written = write_address(address, &mut out);
            end_written(to, written, &out);
        }
        Err(e) => end_refused(to, e),
    }
}

// The text that is written back from a size and four bytes.
fn end_back(to: Stdout, size: u8, bytes: &[u8]) {
    match read_octets(bytes) {
        Ok(address) => {
            let mut out = [0u8; 18];
            let written = write_network(address, size, &mut out);
            end_written(to, written, &out);
        }
        Err(e) => end_refused(to, e),
    }
}

fn end_network(to: Stdout, size: u8, count: usize, buffer: &[u8]) {
    say_number(to, b"size ", size as usize);
    say_number(to, b", bytes ", count);
    say(to, b", buffer");
    say_hex(to, buffer, 4, 1);
    say(to, b", writes back ");
    end_back(to, size, buffer);
}

// The records only if they are wanted.
fn end_range(to: Stdout, first: Address, last: Address, wanted: bool) {
    let mut out = [0u8; 310];
    match range_blocks(first, last, &mut out) {
        Ok((blocks, bytes)) => {
            say_number(to, b"blocks ", blocks);
            say_number(to, b", bytes ", bytes);
            if wanted {
                say(to, b", records");
                say_hex(to, &out, bytes, 5);
            }
            say(to, b"\n");
        }
        Err(e) => end_refused(to, e),
    }
}

// ---- a line for each kind of question

fn strict(to: Stdout, text: &[u8]) {
    say_asked(to, b"strict ", text);
    end_reading(to, read_address(text, 0));
}

fn loosely(to: Stdout, text: &[u8]) {
    say_asked(to, b"loose ", text);
    end_reading(to, read_loose(text));
}

// The buffer begins as ee ee ee ee, so that a byte that is kept is seen.
fn network_form(to: Stdout, text: &[u8]) {
    say_asked(to, b"network ", text);
    let mut out = [238u8; 4];
    match read_network(text, &mut out) {
        Ok((size, count)) => end_network(to, size, count, &out),
        Err(e) => end_refused(to, e),
    }
}

fn block(to: Stdout, text: &[u8]) {
    say_asked(to, b"block ", text);
    match read_block(text) {
        Ok(_) => say(to, b"read\n"),
        Err(e) => end_refused(to, e),
    }
}

// Two texts that are IPv4 addresses.
fn range(to: Stdout, first: &[u8], last: &[u8], wanted: bool) {
    say(to, b"range ");
    say(to, first);
    say_asked(to, b" to ", last);
    let Ok(a) = read_address(first, 4) else {
        return;
    };
    let Ok(b) = read_address(last, 4) else {
        return;
    };
    end_range(to, a, b, wanted);
}

// ---- the rows, in the order of 01

fn ipv4_rows(to: Stdout) {
    strict(to, b"010.0.0.12");
    loosely(to, b"010.0.0.12");
    loosely(to, b"226.000.000.037");
    loosely(to, b"0x7f.1");
}

fn limit_rows(to: Stdout) {
    loosely(to, b"1.2.65535");
    loosely(to, b"1.2.65536");
    loosely(to, b"08.0.0.1");
    loosely(to, b"0x");
}

fn ipv6_rows(to: Stdout) {
    strict(to, b"1:2:3:4:5:6:7::");
    strict(to, b"1:2:3:4:5:6:7:8::");
    strict(to, b"0:0:0:0:0:FFFF:204.152.189.116");
    strict(to, b"2001:db8:0:0:1:0:0:1");
}

fn network_rows(to: Stdout) {
    network_form(to, b"193.168");
    network_form(to, b"193.168.1.128/24");
    network_form(to, b"224.1");
    network_form(to, b"0xabc");
}

fn block_rows(to: Stdout) {
    block(to, b"10.0.0.1/31");
    block(to, b"10.0.0.0/33");
}

// The last is the whole case of "Blocks and ranges".
fn range_rows(to: Stdout) {
    range(to, b"0.0.0.0", b"255.255.255.255", true);
    range(to, b"0.0.0.1", b"255.255.255.254", false);
    range(to, b"10.0.0.1", b"10.0.0.6", true);
}

fn main(rt: HostRuntime) {
    let to = rt.stdout();
    ipv4_rows(to);
    limit_rows(to);
    ipv6_rows(to);
    network_rows(to);
    block_rows(to);
    range_rows(to);
}
