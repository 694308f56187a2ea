// Numbers and lines, written as decimal text into a lent slice of bytes.
ghost use Rattle.std.specs.Prelude.{◌≡◌, ◌+◌, ◌*◌, ◌<◌, ◌≤◌, ℤ, pos, length, map};
ghost use Rattle.text_print.specs.Decimal.{decimal, numeral, further_of, line_of};
ghost use Rattle.text_print.specs.Meaning.{Wrote};

// By hand: std prints a number to a writer that may fail, where here the room is known and no write does.
pub(crate) fn put_decimal(out: &mut [u8], at: usize, n: u64) -> usize
    requires { at + length (decimal n) ≤ length out.old }
    ensures { Wrote out.old out.new at result (decimal n) }
{
    if n < 10 {
        out[at] = b'0' + n as u8;
        return at + 1;
    }
    let e = put_decimal(out, at, n / 10);
    out[e] = b'0' + (n % 10) as u8;
    e + 1
}

// What a line is made of.
pub(crate) trait Number: Copy {
    ghost number: { Self → ℤ };

    // Writes the number from an index on, and tells where it ends.
    fn put(self, out: &mut [u8], at: usize) -> usize
        requires { at + length (numeral (number self)) ≤ length out.old }
        ensures { Wrote out.old out.new at result (numeral (number self)) };
}

impl Number for u64 {
    ghost number = { pos };

    #[tactic(auto, unfolding(crate::specs::Decimal::numeral))]
    fn put(self, out: &mut [u8], at: usize) -> usize {
        put_decimal(out, at, self)
    }
}

impl Number for i32 {
    ghost number = { λ n. n };

    fn put(self, out: &mut [u8], at: usize) -> usize {
        let magnitude = u64::from(self.unsigned_abs());
        if self < 0 {
            out[at] = b'-';
            put_decimal(out, at + 1, magnitude)
        } else {
            put_decimal(out, at, magnitude)
        }
    }
}

// Further numbers of a line, each behind a space, and the newline. No number has more than 21 bytes.
fn put_further<N: Number>(numbers: &[N], out: &mut [u8], at: usize) -> usize
    requires { at + 22 * length numbers.now + 1 ≤ length out.old }
    ensures { Wrote out.old out.new at result (further_of (map N.number numbers.now)) }
{
    let mut end = at;
    for number in numbers {
        out[end] = b' ';
        end = number.put(out, end + 1);
    }
    out[end] = b'\n';
    end + 1
}

// A line with numbers.
pub(crate) fn put_line<N: Number>(numbers: &[N], out: &mut [u8], at: usize) -> usize
    requires numbers_nonempty { 0 < length numbers.now }
    requires numbers_in_bounds { at + 22 * length numbers.now ≤ length out.old }
    ensures { Wrote out.old out.new at result (line_of (map N.number numbers.now)) }
{
    let end = numbers[0].put(out, at);
    put_further(&numbers[1..], out, end)
}
