// What the programs that replay the oracle's answers share: records from standard input, and lines of counts.
#![tactic(auto)]

ghost use Rattle.std.specs.Prelude.{◌≡◌, ◌≤◌, length};

use std::io;
use std::io::{Read, Write};

// Stands behind the last record. No record begins with it.
const MARK: u8 = 255;

// What the input goes on with: a record by its first byte, its end, or what the oracle doesn't write.
#[derive(Clone, Copy)]
pub enum Ahead {
    Record(u8),
    End,
    Cut,
}

// What comes next. Each program has its own loop over records: one for all would take a closure that changes what it captures, and of such a call
// a proof knows too little. Each of these loops has a bound, since every function returns.
pub fn head(input: &mut impl Read) -> Ahead {
    let mut first = [0; 1];
    if input.read_exact(&mut first).is_err() {
        return Ahead::Cut;
    }
    if first[0] != MARK {
        return Ahead::Record(first[0]);
    }
    let mut behind = [0; 1];
    match input.read_exact(&mut behind) {
        Ok(()) => Ahead::Cut,
        Err(_) => Ahead::End,
    }
}

// The next N bytes; zeros where the input has ended.
pub fn bytes<const N: usize>(input: &mut impl Read) -> [u8; N] {
    let mut b = [0; N];
    let _ = input.read_exact(&mut b);
    b
}

// One byte; 0 where the input has ended.
pub fn byte(input: &mut impl Read) -> u8 {
    bytes::<1>(input)[0]
}

// Whether the next N bytes are these.
pub fn same_bytes<const N: usize>(input: &mut impl Read, ours: &[u8; N]) -> bool {
    let mut theirs = [0; N];
    input.read_exact(&mut theirs).is_ok() && *ours == theirs
}

// An array of one value.
pub fn room<T: Copy, const N: usize>(x: T) -> [T; N]
    ensures { length result ≡ N }
{
    [x; N]
}

// Reads on to the end, where the input holds what the oracle doesn't write: no mark is found behind that.
pub fn abandon(input: &mut impl Read) {
    let mut rest = room::<u8, 65536>(0);
    for _ in 0..u64::MAX {
        if input.read_exact(&mut rest).is_err() {
            return;
        }
    }
}

// A number up to a limit; where it is above, the input is abandoned.
fn limited(input: &mut impl Read, x: usize, limit: usize) -> usize
    ensures { result ≤ limit }
{
    if x > limit {
        abandon(input);
        return limit;
    }
    x
}

// A number of two bytes up to a limit; where it is above, the input is abandoned.
pub fn small(input: &mut impl Read, limit: usize) -> usize
    ensures { result ≤ limit }
{
    let x = u16::from_le_bytes(bytes(input));
    limited(input, usize::from(x), limit)
}

// The same of four bytes.
pub fn large(input: &mut impl Read, limit: usize) -> usize
    ensures { result ≤ limit }
{
    let low = usize::from(u16::from_le_bytes(bytes(input)));
    let high = usize::from(u16::from_le_bytes(bytes(input)));
    limited(input, low + 65536 * high, limit)
}

// The next double.
pub fn double(input: &mut impl Read) -> f64 {
    little_endian::f64_at(&bytes::<8>(input), 0)
}

// Whether the next two doubles are these; both are read.
pub fn same_pair(input: &mut impl Read, dh: f64, dd: f64) -> bool {
    let same_h = same_double(input, dh);
    let same_d = same_double(input, dd);
    same_h && same_d
}

pub fn read_doubles(input: &mut impl Read, s: &mut [f64]) {
    for x in s {
        *x = double(input);
    }
}

// Whether two numbers are the same in their bits; any NaN is any NaN.
pub fn same_bits(x: f64, y: f64) -> bool {
    float::to_bits(x) == float::to_bits(y)
}

// Whether x is the next double.
pub fn same_double(input: &mut impl Read, x: f64) -> bool {
    same_bits(x, double(input))
}

// Whether the numbers held so far are the oracle's, and whether each is a number.
#[derive(Clone, Copy)]
pub struct Held {
    pub same: bool,
    pub numbers: bool,
}

impl Held {
    // Whether x is the oracle's next number.
    pub fn hold(&mut self, input: &mut impl Read, x: f64) {
        self.same &= same_double(input, x);
        self.numbers &= !x.is_nan();
    }

    // The same of each number of s.
    pub fn hold_all(&mut self, input: &mut impl Read, s: &[f64]) {
        for x in s {
            self.hold(input, *x);
        }
    }
}

// One more: a count of records never wraps.
pub fn more(n: &mut u64) {
    *n = n.wrapping_add(1);
}

// Writes text. Where a write fails, the rest of the text is left out, and what follows is written all the same; so in `number` and each `line`.
pub fn write(output: &mut impl Write, text: &[u8]) {
    let _ = output.write_all(text);
}

// A space and a number.
pub fn number(output: &mut impl Write, n: u64) {
    let _ = write!(output, " {n}");
}

// A label and a number on a line.
pub fn line(output: &mut impl Write, label: &[u8], n: u64) {
    write(output, label);
    number(output, n);
    write(output, b"\n");
}

// How often each question refused, by its number.
#[derive(Clone, Copy)]
pub struct Refused(pub [u64; 16]);

impl Refused {
    pub fn none() -> Refused {
        Refused([0; 16])
    }

    // A question's no. Its number is below 16.
    pub fn count(&mut self, question: u8) {
        more(&mut self.0[usize::from(question % 16)]);
    }

    // A question's number and how often it refused, on a line.
    pub fn line(&self, output: &mut impl Write, question: u8) {
        write(output, b"refused");
        number(output, u64::from(question));
        number(output, self.0[usize::from(question % 16)]);
        write(output, b"\n");
    }

    // The same of each of these questions.
    pub fn lines(&self, output: &mut impl Write, questions: &[u8]) {
        for question in questions {
            self.line(output, *question);
        }
    }

    // The line of a question, for a caller that asks whether it was written: where a write fails, nothing follows, and its error is the answer.
    pub fn report(&self, output: &mut impl Write, question: u8) -> io::Result<()> {
        let n = self.0[usize::from(question % 16)];
        writeln!(output, "refused {question} {n}")
    }

    // The same of each of these questions, up to the first write that fails.
    pub fn report_all(&self, output: &mut impl Write, questions: &[u8]) -> io::Result<()> {
        for question in questions {
            self.report(output, *question)?;
        }
        Ok(())
    }
}

// What is lent beside a sheet. Not model's Place, which has the sheet too and is that crate's own.
#[derive(Clone, Copy)]
pub struct Place {
    pub sin_lat: f64,
    pub cos_lat: f64,
    pub pier: u8,
}

impl Place {
    pub fn read(input: &mut impl Read) -> Place {
        let sin_lat = double(input);
        let cos_lat = double(input);
        let pier = byte(input);
        Place {
            sin_lat,
            cos_lat,
            pier,
        }
    }
}

#[cfg(test)]
mod tests {
    use super::*;
    use std::io::Cursor;

    // Holds what is written, but for the first write that comes where it holds `bad` bytes: that one fails.
    #[derive(Drop)]
    struct Torn {
        held: Cursor<[u8; 40]>,
        bad: Option<u64>,
    }

    impl Torn {
        fn at(bad: Option<u64>) -> Torn {
            Torn {
                held: Cursor::new([0; 40]),
                bad,
            }
        }

        // Whether it holds this text and no more.
        fn holds(&self, text: &[u8]) -> bool {
            self.held.position() == text.len() as u64 && self.held.get_ref().starts_with(text)
        }
    }

    impl Write for Torn {
        fn write(&mut self, buf: &[u8]) -> io::Result<usize> {
            if self.bad == Some(self.held.position()) {
                self.bad = None;
                return Err(io::Error::from(io::ErrorKind::BrokenPipe));
            }
            self.held.write(buf)
        }

        fn flush(&mut self) -> io::Result<()> {
            Ok(())
        }
    }

    fn refused() -> Refused {
        let mut refused = Refused::none();
        for question in [3, 14, 3] {
            refused.count(question);
        }
        refused
    }

    #[test]
    fn a_report_tells_of_its_write(rt: HostRuntime) {
        let mut output = Torn::at(None);
        assert!(rt; refused().report(&mut output, 14).is_ok());
        assert!(rt; output.holds(b"refused 14 1\n"));
        let mut torn = Torn::at(Some(0));
        assert!(rt; refused().report(&mut torn, 14).is_err());
        assert!(rt; torn.holds(b""));
    }

    #[test]
    fn all_reports_end_at_a_failed_write(rt: HostRuntime) {
        let mut output = Torn::at(None);
        assert!(rt; refused().report_all(&mut output, &[3, 14, 5]).is_ok());
        assert!(rt; output.holds(b"refused 3 2\nrefused 14 1\nrefused 5 0\n"));
        let mut torn = Torn::at(Some(12));
        assert!(rt; refused().report_all(&mut torn, &[3, 14, 5]).is_err());
        assert!(rt; torn.holds(b"refused 3 2\n"));
    }

    // Each part is written by its own call, and only the part that fails is missing.
    #[test]
    fn lines_go_on_behind_a_failed_write(rt: HostRuntime) {
        let mut torn = Torn::at(Some(12));
        refused().lines(&mut torn, &[3, 14, 5]);
        assert!(rt; torn.holds(b"refused 3 2\n 14 1\nrefused 5 0\n"));
    }
}
