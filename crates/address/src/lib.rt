// An IP address as a value of one of two kinds, why a call says no, and blocks of addresses.
// The derived `==` of addresses and of blocks is `same_address` and `same_block`, as `equal_means` and `block_equal_means` of proofs/Claims.antt say.
#![tactic(auto)]

ghost use Rattle.std.specs.Prelude.{◌≡◌, Some};
ghost use Rattle.wide.specs.Value.{value};
ghost use Rattle.std.proofs.Common.{rules};
ghost use Rattle.std.specs.Cmp.{partial_order_from_own_ties};
ghost use Rattle.std.specs.Cmp.Rules.{comparing};
ghost use Rattle.address.specs.Addresses.{family, width, number};
ghost use Rattle.address.specs.Order.{parts_order, parts_po};
ghost use Rattle.address.specs.Answers.{refusal_number, RefusalOf, precedence, check_number, no_block, block_answer, read_answer};
ghost use Rattle.address.specs.Blocks.{block_reasons, block_refusal};

use std::cmp::Ordering;
use wide::Wide;

// The halves of an IPv6 address are its first and its last 64 bits.
#[derive(Clone, Copy, PartialEq, Eq)]
pub enum Address {
    V4(u32),
    V6(u64, u64),
}

// A prefix: the addresses whose first `length` bits are those of `address`. Any value may be made; `check` tells a good one.
#[derive(Clone, Copy, PartialEq, Eq)]
pub struct Block {
    pub address: Address,
    pub length: u8,
}

// Why a call says no, in the order of the numbers 1 to 10.
#[derive(Clone, Copy, PartialEq, Eq)]
pub enum Refusal {
    TextTooLong,
    Malformed,
    NoRoom,
    LengthTooLarge,
    BitsBeyondLength,
    NoClass,
    HostTooLarge,
    FirstAboveLast,
    WrongFamily,
    TooMany,
}

// The number of the table, 1 to 10.
impl From<Refusal> for u8 {
    ghost from_gives = { λ refusal n. n ≡ refusal_number refusal };

    fn from(refusal: Refusal) -> u8 {
        match refusal {
            Refusal::TextTooLong => 1,
            Refusal::Malformed => 2,
            Refusal::NoRoom => 3,
            Refusal::LengthTooLarge => 4,
            Refusal::BitsBeyondLength => 5,
            Refusal::NoClass => 6,
            Refusal::HostTooLarge => 7,
            Refusal::FirstAboveLast => 8,
            Refusal::WrongFamily => 9,
            Refusal::TooMany => 10,
        }
    }
}

// The refusal of a number of the table. Any other number is not of the form asked for, which is a refusal itself.
impl TryFrom<u32> for Refusal {
    type Error = Refusal;

    ghost try_from_gives = { RefusalOf };

    fn try_from(number: u32) -> Result<Refusal, Refusal> {
        match number {
            1 => Ok(Refusal::TextTooLong),
            2 => Ok(Refusal::Malformed),
            3 => Ok(Refusal::NoRoom),
            4 => Ok(Refusal::LengthTooLarge),
            5 => Ok(Refusal::BitsBeyondLength),
            6 => Ok(Refusal::NoClass),
            7 => Ok(Refusal::HostTooLarge),
            8 => Ok(Refusal::FirstAboveLast),
            9 => Ok(Refusal::WrongFamily),
            10 => Ok(Refusal::TooMany),
            _ => Err(Refusal::Malformed),
        }
    }
}

impl Address {
    // 4 or 6.
    pub fn family(self) -> u8
        ensures { result ≡ family self }
    {
        match self {
            Address::V4(_) => 4,
            Address::V6(_, _) => 6,
        }
    }

    // The number of bits: 32 or 128.
    pub fn width(self) -> u8
        ensures { result ≡ width self }
    {
        match self {
            Address::V4(_) => 32,
            Address::V6(_, _) => 128,
        }
    }

    // The address as a number, its first byte highest.
    pub fn number(self) -> Wide
        ensures { value result ≡ number self }
    {
        match self {
            Address::V4(v) => Wide::from(v as u64),
            Address::V6(hi, lo) => Wide::from_halves(hi, lo),
        }
    }
}

// By their numbers, if they are of one family (`order_means` of proofs/Claims.antt); those of two have no order, so that no caller can take one
// for it. A derive would order all IPv4 addresses before all IPv6 ones.
impl PartialOrd for Address {
    ghost partial_cmp = { parts_order };

    ghost laws = { partial_order_from_own_ties parts_po (Prim.search (comparing, rules)) };

    fn partial_cmp(&self, other: &Address) -> Option<Ordering> {
        match (*self, *other) {
            (Address::V4(v), Address::V4(w)) => Some(v.cmp(&w)),
            (Address::V6(hi, lo), Address::V6(h, l)) => Some((hi, lo).cmp(&(h, l))),
            _ => None,
        }
    }
}

impl Block {
    // Whether the block keeps both rules: its length is at most the address's width, and no bit beyond the length is one.
    pub fn check(self) -> Result<(), Refusal>
        ensures { check_number result ≡ block_refusal self }
    {
        let address = self.address;
        let length = self.length;
        let width = address.width();
        if width < length {
            return Err(Refusal::LengthTooLarge);
        }
        if address.number().ends_in_zeros((width - length) as u32) {
            return Ok(());
        }
        Err(Refusal::BitsBeyondLength)
    }

    // The block, where it keeps both rules.
    pub fn checked(self) -> Result<Block, Refusal>
        ensures { block_answer result ≡ read_answer precedence no_block (block_reasons self) (Some self) }
    {
        self.check()?;
        Ok(self)
    }
}
