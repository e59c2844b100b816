// Numbers as bytes, most significant first. (The toolchain has a library of the name `bytes`, for bytes that are no
// numbers.)
//
// put8 and put4 stay two: what they share is one call of the library, and a trait over both would be longer.
#![tactic(auto)]

ghost use Rattle.std.specs.Prelude.{◌≡◌, ◌*◌, ◌≤◌, length, take};
ghost use Rattle.frame.specs.Answers.{over};
ghost use Rattle.octets.specs.Bytes.{bytes_of, bytes, number_of, numbers, signed};

// The eight bytes of w over the front of out.
pub fn put8(w: u64, out: &mut [u8])
    requires { 8 ≤ length out.old }
    ensures { out.new ≡ over (bytes_of 8 w) out.old }
{
    out[..8].copy_from_slice(&w.to_be_bytes());
}

// The four bytes of w over the front of out.
pub fn put4(w: u32, out: &mut [u8])
    requires { 4 ≤ length out.old }
    ensures { out.new ≡ over (bytes_of 4 w) out.old }
{
    out[..4].copy_from_slice(&w.to_be_bytes());
}

// The number of the first eight bytes.
pub fn get8(bytes: &[u8]) -> u64
    requires { 8 ≤ length bytes.now }
    ensures { result ≡ number_of (take 8 bytes.now) }
{
    u64::from_be_bytes([
        bytes[0], bytes[1], bytes[2], bytes[3], bytes[4], bytes[5], bytes[6], bytes[7],
    ])
}

// The number of the first four bytes as a signed number.
pub fn get_signed4(bytes: &[u8]) -> i32
    requires { 4 ≤ length bytes.now }
    ensures { result ≡ signed 4 (number_of (take 4 bytes.now)) }
{
    i32::from_be_bytes([bytes[0], bytes[1], bytes[2], bytes[3]])
}

// The first words of the bytes, eight for each, over the front of a list.
pub fn read_words(bytes: &[u8], count: usize, words: &mut [u64])
    requires { (8 * count ≤ length bytes.now) × (count ≤ length words.old) }
    ensures { take count words.new ≡ numbers 8 count bytes.now }
{
    for i in 0..count {
        words[i] = get8(&bytes[8 * i..]);
    }
}

// The bytes of the first words of a list, eight for each, over the front of out.
pub fn write_words(words: &[u64], count: usize, out: &mut [u8])
    requires { (count ≤ length words.now) × (8 * count ≤ length out.old) }
    ensures { out.new ≡ over (bytes 8 (take count words.now)) out.old }
{
    for i in 0..count {
        put8(words[i], &mut out[8 * i..]);
    }
}
