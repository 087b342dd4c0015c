// The scheduler's library for C and Rust: each export is the call of the crate `gateway` that has its name, and promises the
// same. include/uplink.h says to the caller what is lent and what each number means.
#![tactic(auto)]

ghost use Rattle.std.specs.Prelude.{◌≡◌, []};
ghost use Rattle.gateway.specs.Gateway.{answered, lending};
ghost use Rattle.gateway.specs.Gateway.{gateway_opening, gateway_arrival, gateway_pick, gateway_depth};

// Opens a table: its flows' shares and largest packets, and the link header of every packet.
#[unsafe(no_mangle)]
pub extern "C" fn uplink_opening(
    shares: &[u32],
    largest: &[u32],
    header: u32,
    block: &mut [u64],
    lengths: &mut [u16],
    handles: &mut [u32],
) -> u64
    ensures exact { answered result (lending block.new lengths.new handles.new [])
        ≡ gateway_opening shares.now largest.now header
        (lending block.old lengths.old handles.old []) }
{
    gateway::uplink_opening(shares, largest, header, block, lengths, handles)
}

// A packet comes to a flow.
#[unsafe(no_mangle)]
pub extern "C" fn uplink_arrival(
    flow: u32,
    length: u32,
    handle: u32,
    block: &mut [u64],
    lengths: &mut [u16],
    handles: &mut [u32],
) -> u32
    ensures exact { answered result (lending block.new lengths.new handles.new [])
        ≡ gateway_arrival flow length handle
        (lending block.old lengths.old handles.old []) }
{
    gateway::uplink_arrival(flow, length, handle, block, lengths, handles)
}

// The packet to send next.
#[unsafe(no_mangle)]
pub extern "C" fn uplink_pick(
    block: &mut [u64],
    lengths: &mut [u16],
    handles: &mut [u32],
    reply: &mut [u64],
) -> u32
    ensures exact { answered result
        (lending block.new lengths.new handles.new reply.new)
        ≡ gateway_pick
        (lending block.old lengths.old handles.old reply.old) }
{
    gateway::uplink_pick(block, lengths, handles, reply)
}

// How many packets wait in a flow. The form of the record is not tested.
#[unsafe(no_mangle)]
pub extern "C" fn uplink_depth(flow: u32, block: &[u64], reply: &mut [u64]) -> u32
    ensures exact { answered result (lending block.now [] [] reply.new)
        ≡ gateway_depth flow (lending block.now [] [] reply.old) }
{
    gateway::uplink_depth(flow, block, reply)
}
