// The answers of the C interface, and the library's answers as these.
#![tactic(auto)]

ghost use Rattle.std.specs.Prelude.{◌≡◌, min};
ghost use Rattle.address.specs.Answers.{refuses, writing_answer};
ghost use Rattle.network.specs.Network.{network_reading_answer};
ghost use Rattle.classes.specs.Classes.{splitting_answer};
ghost use Rattle.records.specs.Records.{blocks_writing_answer};
ghost use Rattle.c_answers.specs.CAnswers.{written_answer, network_read_answer, network_host_answer, block_read_answer, blocks_written_answer, besides};

use address::Refusal;

// Every answer has the refusal's number first, 0 for none; where it is not 0, every other field is.

// How many bytes the call has written to the start of the lent buffer.
#[repr(C)]
#[derive(Clone, Copy)]
pub struct Written {
    pub refusal: u32,
    pub bytes: usize,
}

// The size of a network, and how many of its bytes are at the start of the lent buffer.
#[repr(C)]
#[derive(Clone, Copy)]
pub struct NetworkRead {
    pub refusal: u32,
    pub size: u32,
    pub bytes: usize,
}

// The two numbers of an address of class A, B or C.
#[repr(C)]
#[derive(Clone, Copy)]
pub struct NetworkHost {
    pub refusal: u32,
    pub network: u32,
    pub host: u32,
}

// The length of a block, and how many bytes of its address are at the start of the lent buffer.
#[repr(C)]
#[derive(Clone, Copy)]
pub struct BlockRead {
    pub refusal: u32,
    pub length: u32,
    pub bytes: usize,
}

// How many records are at the start of the lent buffer, and how many bytes they fill.
#[repr(C)]
#[derive(Clone, Copy)]
pub struct BlocksWritten {
    pub refusal: u32,
    pub blocks: usize,
    pub bytes: usize,
}

// A refusal where a number of bytes would be answered.
impl From<Refusal> for Written {
    ghost from_gives = { λ e r. written_answer r ≡ refuses 0 e };

    fn from(e: Refusal) -> Written {
        let number = u8::from(e) as u32;
        Written {
            refusal: number,
            bytes: 0,
        }
    }
}

// What a writer answered.
impl From<Result<usize, Refusal>> for Written {
    ghost from_gives = { λ w r. written_answer r ≡ writing_answer w };

    fn from(w: Result<usize, Refusal>) -> Written {
        match w {
            Ok(bytes) => Written { refusal: 0, bytes },
            Err(e) => Written::from(e),
        }
    }
}

// What the reader of the network form answered.
impl From<Result<(u8, usize), Refusal>> for NetworkRead {
    ghost from_gives = { λ n r. network_read_answer r ≡ network_reading_answer n };

    fn from(n: Result<(u8, usize), Refusal>) -> NetworkRead {
        match n {
            Ok((size, bytes)) => NetworkRead {
                refusal: 0,
                size: size as u32,
                bytes,
            },
            Err(e) => NetworkRead {
                refusal: u8::from(e) as u32,
                size: 0,
                bytes: 0,
            },
        }
    }
}

// What a split answered.
impl From<Result<(u32, u32), Refusal>> for NetworkHost {
    ghost from_gives = { λ s r. network_host_answer r ≡ splitting_answer s };

    fn from(s: Result<(u32, u32), Refusal>) -> NetworkHost {
        match s {
            Ok((network, host)) => NetworkHost {
                refusal: 0,
                network,
                host,
            },
            Err(e) => NetworkHost {
                refusal: u8::from(e) as u32,
                network: 0,
                host: 0,
            },
        }
    }
}

// What the writer of a range answered.
impl From<Result<(usize, usize), Refusal>> for BlocksWritten {
    ghost from_gives = { λ w r. blocks_written_answer r ≡ blocks_writing_answer w };

    fn from(w: Result<(usize, usize), Refusal>) -> BlocksWritten {
        match w {
            Ok((blocks, bytes)) => BlocksWritten {
                refusal: 0,
                blocks,
                bytes,
            },
            Err(e) => BlocksWritten {
                refusal: u8::from(e) as u32,
                blocks: 0,
                bytes: 0,
            },
        }
    }
}

// A length beside what a writer of the address answers.
pub fn as_block_read(length: u8, w: Result<usize, Refusal>) -> BlockRead
    ensures { block_read_answer result ≡ besides length (writing_answer w) }
{
    match w {
        Ok(bytes) => BlockRead {
            refusal: 0,
            length: length as u32,
            bytes,
        },
        Err(e) => BlockRead {
            refusal: u8::from(e) as u32,
            length: 0,
            bytes: 0,
        },
    }
}

// A number that is too large for a byte becomes 255, which is as wrong a family, length or size.
pub fn as_byte(n: u32) -> u8
    ensures { result ≡ min n 255 }
{
    if 255 < n { 255 } else { n as u8 }
}
