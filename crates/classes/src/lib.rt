// The classes A, B and C: an IPv4 address split into a network number and a host number, and joined again.
#![tactic(auto)]

ghost use Rattle.std.specs.Prelude.{◌≡◌, [], ◌∷◌, ◌+◌, ◌*◌, ◌^◌, ◌<◌, ltb};
ghost use Rattle.address.specs.Answers.{precedence, answer, no_address, reading_answer, refusal};
ghost use Rattle.address.specs.declared.Address.TheVariants.{V4};
ghost use Rattle.classes.specs.Classes.{splitting_answer, split_answer, join_answer};

use address::{Address, Refusal};

// The network number and the host number of an IPv4 address. The class bits stay in the network number.
pub fn split(address: Address) -> Result<(u32, u32), Refusal>
    ensures { splitting_answer result ≡ split_answer address }
{
    let Address::V4(v) = address else {
        return Err(Refusal::WrongFamily);
    };
    if v < 0x8000_0000 {
        return Ok((v / 16777216, v % 16777216));
    }
    if v < 0xc000_0000 {
        return Ok((v / 65536, v % 65536));
    }
    if v < 0xe000_0000 {
        return Ok((v / 256, v % 256));
    }
    Err(Refusal::NoClass)
}

// The address of a host in a network whose largest host number is `most`.
fn host_address(network: u32, host: u32, most: u32) -> Result<Address, Refusal>
    requires { (most < 2 ^ 24) × (network * (most + 1) + most < 2 ^ 32) }
    ensures { reading_answer result ≡ answer no_address (refusal precedence ((7, ltb most host) ∷ [])) (V4 (network * (most + 1) + host)) }
{
    if most < host {
        return Err(Refusal::HostTooLarge);
    }
    Ok(Address::V4(network * (most + 1) + host))
}

// The address that a network number and a host number of its class make.
pub fn join(network: u32, host: u32) -> Result<Address, Refusal>
    ensures { reading_answer result ≡ join_answer network host }
{
    match network {
        0..=127 => host_address(network, host, 16777215),
        32768..=49151 => host_address(network, host, 65535),
        12582912..=14680063 => host_address(network, host, 255),
        _ => Err(Refusal::NoClass),
    }
}
