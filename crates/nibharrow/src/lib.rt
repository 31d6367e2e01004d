// The C interface: each call of the library, with addresses as octets in network order.
#![tactic(auto)]

ghost use Rattle.std.specs.Prelude.{◌≡◌};
ghost use Rattle.address.specs.Answers.{reading_answer};
ghost use Rattle.text.specs.Strict.{strict_answer};
ghost use Rattle.loose.specs.Loose.{loose_answer};
ghost use Rattle.classes.specs.Classes.{join_answer};
ghost use Rattle.c_answers.specs.CAnswers.{written_answer, network_read_answer, network_host_answer, block_read_answer, blocks_written_answer};
ghost use Rattle.nibharrow.specs.Interface.{outcome, address_into, address_written, network_into, network_written, octets_split, block_into, block_written, range_to, range_into, gather_into, uncovered_into, respell_into, words_into};

use address::{Address, Block, Refusal};
use blocks::{read_block, write_block};
use c_answers::{
    BlockRead, BlocksWritten, NetworkHost, NetworkRead, Written, as_block_read, as_byte,
};
use classes::{join, split};
use gather::{gather, uncovered};
use loose::read_loose;
use network::{read_network, write_network};
use normal::write_address;
use octets::{read_octets, write_octets};
use ranges::range_blocks;
use sheet::respell;
use text::read_address;
use words::write_words;

// Puts the address that a reader answered at the start of `out`.
fn put_reading(reading: Result<Address, Refusal>, out: &mut [u8]) -> Written
    ensures { outcome (written_answer result) out.new ≡ address_into (reading_answer reading) out.old }
{
    match reading {
        Ok(a) => Written::from(write_octets(a, out)),
        Err(e) => Written::from(e),
    }
}

#[unsafe(no_mangle)]
pub extern "C" fn nibharrow_read_address(text: &[u8], family: u32, out: &mut [u8]) -> Written
    ensures { outcome (written_answer result) out.new ≡ address_into (strict_answer family text.now) out.old }
{
    put_reading(read_address(text, as_byte(family)), out)
}

#[unsafe(no_mangle)]
pub extern "C" fn nibharrow_read_loose(text: &[u8], out: &mut [u8]) -> Written
    ensures { outcome (written_answer result) out.new ≡ address_into (loose_answer text.now) out.old }
{
    put_reading(read_loose(text), out)
}

#[unsafe(no_mangle)]
pub extern "C" fn nibharrow_join(network: u32, host: u32, out: &mut [u8]) -> Written
    ensures { outcome (written_answer result) out.new ≡ address_into (join_answer network host) out.old }
{
    put_reading(join(network, host), out)
}

#[unsafe(no_mangle)]
pub extern "C" fn nibharrow_write_address(address: &[u8], out: &mut [u8]) -> Written
    ensures { outcome (written_answer result) out.new ≡ address_written address.now out.old }
{
    match read_octets(address) {
        Ok(a) => Written::from(write_address(a, out)),
        Err(e) => Written::from(e),
    }
}

#[unsafe(no_mangle)]
pub extern "C" fn nibharrow_read_network(text: &[u8], out: &mut [u8]) -> NetworkRead
    ensures { outcome (network_read_answer result) out.new ≡ network_into text.now out.old }
{
    NetworkRead::from(read_network(text, out))
}

#[unsafe(no_mangle)]
pub extern "C" fn nibharrow_write_network(address: &[u8], size: u32, out: &mut [u8]) -> Written
    ensures { outcome (written_answer result) out.new ≡ network_written address.now size out.old }
{
    match read_octets(address) {
        Ok(a) => Written::from(write_network(a, as_byte(size), out)),
        Err(e) => Written::from(e),
    }
}

#[unsafe(no_mangle)]
pub extern "C" fn nibharrow_split(address: &[u8]) -> NetworkHost
    ensures { network_host_answer result ≡ octets_split address.now }
{
    match read_octets(address) {
        Ok(a) => NetworkHost::from(split(a)),
        Err(e) => NetworkHost::from(Err(e)),
    }
}

#[unsafe(no_mangle)]
pub extern "C" fn nibharrow_read_block(text: &[u8], out: &mut [u8]) -> BlockRead
    ensures { outcome (block_read_answer result) out.new ≡ block_into text.now out.old }
{
    match read_block(text) {
        Ok(block) => {
            let address = block.address;
            as_block_read(block.length, write_octets(address, out))
        }
        Err(e) => as_block_read(0, Err(e)),
    }
}

#[unsafe(no_mangle)]
pub extern "C" fn nibharrow_write_block(address: &[u8], length: u32, out: &mut [u8]) -> Written
    ensures { outcome (written_answer result) out.new ≡ block_written address.now length out.old }
{
    match read_octets(address) {
        Ok(a) => {
            let block = Block {
                address: a,
                length: as_byte(length),
            };
            Written::from(write_block(block, out))
        }
        Err(e) => Written::from(e),
    }
}

// Writes the records of the range from an address to the one that a reader answered.
fn put_range(first: Address, last: Result<Address, Refusal>, out: &mut [u8]) -> BlocksWritten
    ensures { outcome (blocks_written_answer result) out.new ≡ range_to first (reading_answer last) out.old }
{
    match last {
        Ok(b) => BlocksWritten::from(range_blocks(first, b, out)),
        Err(e) => BlocksWritten::from(Err(e)),
    }
}

#[unsafe(no_mangle)]
pub extern "C" fn nibharrow_range_blocks(first: &[u8], last: &[u8], out: &mut [u8]) -> BlocksWritten
    ensures { outcome (blocks_written_answer result) out.new ≡ range_into first.now last.now out.old }
{
    match read_octets(first) {
        Ok(a) => put_range(a, read_octets(last), out),
        Err(e) => BlocksWritten::from(Err(e)),
    }
}

#[unsafe(no_mangle)]
pub extern "C" fn nibharrow_gather(records: &[u8], family: u32, out: &mut [u8]) -> BlocksWritten
    ensures { outcome (blocks_written_answer result) out.new ≡ gather_into family records.now out.old }
{
    BlocksWritten::from(gather(as_byte(family), records, out))
}

#[unsafe(no_mangle)]
pub extern "C" fn nibharrow_uncovered(records: &[u8], family: u32, out: &mut [u8]) -> BlocksWritten
    ensures { outcome (blocks_written_answer result) out.new ≡ uncovered_into family records.now out.old }
{
    BlocksWritten::from(uncovered(as_byte(family), records, out))
}

// Any number but 0 asks for the lines sorted.
#[unsafe(no_mangle)]
pub extern "C" fn nibharrow_respell(sheet: &[u8], sorted: u32, out: &mut [u8]) -> Written
    ensures { outcome (written_answer result) out.new ≡ respell_into sorted sheet.now out.old }
{
    Written::from(respell(sheet, sorted != 0, out))
}

#[unsafe(no_mangle)]
pub extern "C" fn nibharrow_refusal_text(number: u32, out: &mut [u8]) -> Written
    ensures { outcome (written_answer result) out.new ≡ words_into number out.old }
{
    Written::from(write_words(number, out))
}
