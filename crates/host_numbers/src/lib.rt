// Document 01, section 1: the answer's numbers go to a lent slice of bytes, eight bytes each, low byte first.
#![tactic(auto)]

ghost use Rattle.std.specs.Prelude.{◌≡◌, ◌*◌, ◌≤◌, length};
ghost use Rattle.host_numbers.specs.Numbers.{bytes_of, over};

// A number's bytes.
const NUMBER_BYTES: usize = 8;

// Numbers from the start of a slice, one after the other.
pub fn put_numbers(out: &mut [u8], numbers: &[u64])
    requires { 8 * length numbers.now ≤ length out.old }
    ensures { out.new ≡ over (bytes_of numbers.now) out.old }
{
    for (i, x) in numbers.iter().enumerate() {
        let at = NUMBER_BYTES * i;
        out[at..at + NUMBER_BYTES].copy_from_slice(&x.to_le_bytes());
    }
}
