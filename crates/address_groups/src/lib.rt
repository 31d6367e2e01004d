// The eight groups of an IPv6 address, as one value.
#![tactic(auto)]

ghost use Rattle.std.specs.Prelude.{◌≡◌, ◌+◌, ◌*◌};
ghost use Rattle.address_groups.specs.Groups.{groups_of, groups_address};

use address::Address;

// The groups of the address with these halves.
pub fn groups(hi: u64, lo: u64) -> [u16; 8]
    ensures { result ≡ groups_of hi lo }
{
    [
        (hi / 281474976710656) as u16,
        (hi / 4294967296 % 65536) as u16,
        (hi / 65536 % 65536) as u16,
        (hi % 65536) as u16,
        (lo / 281474976710656) as u16,
        (lo / 4294967296 % 65536) as u16,
        (lo / 65536 % 65536) as u16,
        (lo % 65536) as u16,
    ]
}

// Four groups as the half of an address.
fn half(a: u16, b: u16, c: u16, d: u16) -> u64
    ensures { result ≡ ((a * 65536 + b) * 65536 + c) * 65536 + d }
{
    (((a as u64) * 65536 + (b as u64)) * 65536 + (c as u64)) * 65536 + (d as u64)
}

// The address with these groups.
pub fn from_groups(groups: [u16; 8]) -> Address
    ensures { result ≡ groups_address groups }
{
    Address::V6(
        half(groups[0], groups[1], groups[2], groups[3]),
        half(groups[4], groups[5], groups[6], groups[7]),
    )
}
