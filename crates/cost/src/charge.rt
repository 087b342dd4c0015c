// What a packet is charged, in bytes and in ticks: document 02 a), and document 01, "Shares, cost and the two clocks".
// Tags, clock, link time and leap width are all made of these figures.
ghost use Rattle.std.specs.Prelude.{◌≡◌, ◌<◌, ◌^◌};
ghost use Rattle.cost.specs.Charge.{charge_of, charge_ticks, link_ticks};

// What a packet of `length` bytes is charged, in bytes: each carries a link header of `header` bytes.
pub fn charge_of(header: u16, length: u16) -> u32
    ensures value { result ≡ charge_of header length }
    ensures fits { result < 2 ^ 17 }
{
    u32::from(length) + u32::from(header)
}

// The same in the ticks of its flow, to which a byte costs `cost`.
pub fn charge_ticks(header: u16, length: u16, cost: u32) -> u64
    ensures value { result ≡ charge_ticks cost (charge_of header length) }
    ensures fits { result < 2 ^ 49 }
{
    u64::from(charge_of(header, length)) * u64::from(cost)
}

// The same in the ticks of the link, to which a byte costs 720.
pub fn link_ticks(header: u16, length: u16) -> u64
    ensures value { result ≡ link_ticks (charge_of header length) }
    ensures fits { result < 2 ^ 27 }
{
    720 * u64::from(charge_of(header, length))
}
