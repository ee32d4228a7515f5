// Numbers and fields of a line, by positions. A number is held at `CAP` where it is greater, so that it never wraps.
ghost use Rattle.std.specs.Prelude.{◌≡◌, true, ◌+◌, ◌-◌, ◌*◌, ◌≤◌, length, drop};
ghost use Rattle.dimacs.specs.Decimal.{is_digit, number};
ghost use Rattle.dimacs.specs.Read.{fields};
ghost use Rattle.scanner.specs.Capped.{cap, cap_scan, cap_number, cap_fields, starts, field};
ghost use Rattle.scanner.specs.Code.{scanned, parsed, end_of, fields_read};

// Any number above every limit serves, since no limit tells it from a greater one, and the greatest limit is a weight's 65,535. `cap` of
// specs/Capped.antt goes by the same number.
const CAP: u32 = 65536;

// Whether a byte is one of `0` to `9`.
fn is_digit(b: u8) -> bool
    ensures { result ≡ is_digit b }
{
    if b < 48 {
        return false;
    }
    b <= 57
}

// One digit more.
fn push(value: u32, b: u8) -> u32
    requires { (value ≤ 65536) × (is_digit b ≡ true) }
    ensures { result ≡ cap (value * 10 + (b - 48)) }
{
    let x = value * 10 + (b as u32 - 48);
    if x < CAP { x } else { CAP }
}

// The number of the digits from `start` on, after a first one of that value, and the position after the last of them.
fn scan(s: &[u8], start: usize, first: u32) -> (u32, usize)
    requires { (start ≤ length s.now) × (first ≤ 65536) }
    ensures { (scanned s.now result ≡ cap_scan first (drop start s.now)) × (result.1 ≤ length s.now) }
{
    let mut value = first;
    for i in start..s.len() {
        if !is_digit(s[i]) {
            return (value, i);
        }
        value = push(value, s[i]);
    }
    (value, s.len())
}

// The number at a position and the position after it.
fn read_number(s: &[u8], at: usize) -> Option<(u32, usize)>
    requires { at ≤ length s.now }
    ensures { (parsed s.now result ≡ cap_number (number (drop at s.now))) × (end_of result ≤ length s.now) }
{
    if s.len() <= at {
        return None;
    }
    let b = s[at];
    if b == 48 {
        return Some((0, at + 1));
    }
    if !is_digit(b) {
        return None;
    }
    Some(scan(s, at + 1, b as u32 - 48))
}

// Whether the byte at a position is `c`.
pub fn holds(s: &[u8], at: usize, c: u8) -> bool
    ensures { result ≡ starts c (drop at s.now) }
{
    if s.len() <= at {
        return false;
    }
    s[at] == c
}

// A space and a number at a position.
fn read_field(s: &[u8], at: usize) -> Option<(u32, usize)>
    ensures { (parsed s.now result ≡ cap_number (field (drop at s.now))) × (end_of result ≤ length s.now) }
{
    if !holds(s, at, 32) {
        return None;
    }
    read_number(s, at + 1)
}

// Numbers, each after a single space, to the end of a line.
pub fn read_fields<const N: usize>(s: &[u8], at: usize) -> Option<[u32; N]>
    ensures { fields_read result ≡ cap_fields (fields N (drop at s.now)) }
{
    let mut values = [0; N];
    let mut end = at;
    for value in values.iter_mut() {
        let (number, next) = read_field(s, end)?;
        *value = number;
        end = next;
    }
    if end < s.len() {
        return None;
    }
    Some(values)
}
