// Fields of 32 bits and of 16 in a list of bytes, the least byte first: written and read.
#![tactic(auto)]

ghost use Rattle.std.specs.Prelude.{◌+◌, ◌≤◌, ◌≡◌, ◌++◌, length, take, drop};
ghost use Rattle.fields.specs.Field.{field_size, field_bytes, field_at, half_size, half_bytes, half_at};

// The bytes of a field, and of half a field.
pub const FIELD: usize = 4;

const HALF: usize = 2;

// Inner. Puts a field at a place.
pub fn put_field(value: u32, place: usize, bytes: &mut [u8])
    requires { place + field_size ≤ length bytes.old }
    ensures { bytes.new ≡ take place bytes.old ++ field_bytes value ++ drop (place + field_size) bytes.old }
{
    bytes[place..place + FIELD].copy_from_slice(&value.to_le_bytes());
}

// Inner. Puts half a field at a place. A line of std's as for a field: one function over the width would be no plainer.
pub fn put_half(half: u16, place: usize, bytes: &mut [u8])
    requires { place + half_size ≤ length bytes.old }
    ensures { bytes.new ≡ take place bytes.old ++ half_bytes half ++ drop (place + half_size) bytes.old }
{
    bytes[place..place + HALF].copy_from_slice(&half.to_le_bytes());
}

// Inner. The field at a place.
pub fn get_field(bytes: &[u8], place: usize) -> u32
    requires { place + field_size ≤ length bytes.now }
    ensures { result ≡ field_at bytes.now place }
{
    u32::from_le_bytes([
        bytes[place],
        bytes[place + 1],
        bytes[place + 2],
        bytes[place + 3],
    ])
}

// Inner. Half a field at a place.
pub fn get_half(bytes: &[u8], place: usize) -> u16
    requires { place + half_size ≤ length bytes.now }
    ensures { result ≡ half_at bytes.now place }
{
    u16::from_le_bytes([bytes[place], bytes[place + 1]])
}
