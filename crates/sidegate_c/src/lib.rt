// The plain engine's library for C: each export is the call of the crate `sidegate` that has its name, and promises the
// same. include/backward.h says to the caller what is lent.
#![tactic(auto)]

ghost use Rattle.std.specs.Prelude.{◌≡◌, []};
ghost use Rattle.gateway.specs.Gateway.{answered, lending};
ghost use Rattle.sidegate.specs.Plain.{plain_opening, plain_arrival, plain_pick};

// Opens a table: its flows' shares and largest packets, and the link header of every packet.
#[unsafe(no_mangle)]
pub extern "C" fn backward_opening(
    shares: &[u32],
    largest: &[u32],
    header: u32,
    block: &mut [u64],
    lengths: &mut [u16],
    handles: &mut [u32],
) -> u64
    ensures exact { answered result (lending block.new lengths.new handles.new [])
        ≡ plain_opening shares.now largest.now header
        (lending block.old lengths.old handles.old []) }
{
    sidegate::backward_opening(shares, largest, header, block, lengths, handles)
}

// A packet comes to a flow.
#[unsafe(no_mangle)]
pub extern "C" fn backward_arrival(
    flow: u32,
    length: u32,
    handle: u32,
    block: &mut [u64],
    lengths: &mut [u16],
    handles: &mut [u32],
) -> u32
    ensures exact { answered result (lending block.new lengths.new handles.new [])
        ≡ plain_arrival flow length handle
        (lending block.old lengths.old handles.old []) }
{
    sidegate::backward_arrival(flow, length, handle, block, lengths, handles)
}

// The packet to send next.
#[unsafe(no_mangle)]
pub extern "C" fn backward_pick(
    block: &mut [u64],
    lengths: &mut [u16],
    handles: &mut [u32],
    reply: &mut [u64],
) -> u32
    ensures exact { answered result
        (lending block.new lengths.new handles.new reply.new)
        ≡ plain_pick
        (lending block.old lengths.old handles.old reply.old) }
{
    sidegate::backward_pick(block, lengths, handles, reply)
}
