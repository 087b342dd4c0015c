// Little-endian numbers in lent bytes: the fields of a log card's block (document 02 d). A field is a lent part, and as
// wide as that part is, seven bytes too: the library's `to_le_bytes` has the widths of its types alone.
#![tactic(auto)]

ghost use Rattle.std.specs.Prelude.{◌≡◌, ◌<◌, ◌≤◌, ◌^◌, length};
ghost use Rattle.fields.specs.Bytes.{bytes_of, number_of};

// Writes a number, the lowest byte first; what does not fit into so many bytes is left out.
pub fn write_number(bytes: &mut [u8], number: u64)
    ensures { bytes.new ≡ bytes_of (length bytes.old) number }
{
    let mut left = number;
    for byte in bytes.iter_mut() {
        *byte = (left % 256) as u8;
        left /= 256;
    }
}

// Reads a number of at most eight bytes, the lowest byte first.
pub fn read_number(bytes: &[u8]) -> u64
    requires { length bytes.now ≤ 8 }
    ensures { (result ≡ number_of bytes.now) × (result < 256 ^ length bytes.now) }
{
    let mut number = 0;
    for byte in bytes.iter().rev() {
        number = number * 256 + u64::from(*byte);
    }
    number
}
