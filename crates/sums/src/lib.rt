// The two sums of a log card's block (document 02 d): the first over bytes 0 to 507, the second over the first's
// running values, both modulo 65,535. They stand in bytes 508 to 511.
#![tactic(auto)]

ghost use Rattle.std.specs.Prelude.{◌≡◌};
ghost use Rattle.fields.specs.Bytes.{part};
ghost use Rattle.sums.specs.Sums.{sums_of, sums_right};

use fields::read_number;

// The two sums, each 0 to 65,534.
#[derive(Drop)]
pub struct Sums {
    pub first: u16,
    pub second: u16,
}

// The bytes of a block.
pub const BLOCK_BYTES: usize = 512;

// How many bytes of a block are summed: all but the sums' own.
const SUMMED: usize = 508;

// What both sums are taken by.
const MODULUS: u32 = 65535;

// The sums of a block's bytes 0 to 507, whatever stands behind them.
pub fn sums_of(block: &[u8; BLOCK_BYTES]) -> Sums
    ensures { result ≡ sums_of (part block.now 0 508) }
{
    let mut first: u32 = 0;
    let mut second: u32 = 0;
    for summed in &block[..SUMMED] {
        let byte = u32::from(*summed);
        first = (first + byte) % MODULUS;
        second = (second + first) % MODULUS;
    }
    Sums {
        first: first as u16,
        second: second as u16,
    }
}

// Whether the sums that stand in a block are those of its bytes. One by one, since what is read has 64 bits and a sum 16.
pub fn sums_right(block: &[u8; BLOCK_BYTES]) -> bool
    ensures { result ≡ sums_right block.now }
{
    let sums = sums_of(block);
    let first = read_number(&block[508..510]);
    let second = read_number(&block[510..512]);
    first == u64::from(sums.first) && second == u64::from(sums.second)
}
