// Bytes put at a position of a lent buffer. Each function gives the position after what it put.
// Kept by hand, not by `Display`: the bytes go to a place of a lent buffer, each stands in the contract, and no memory is asked for.
ghost use Rattle.std.specs.Prelude.{◌≡◌, [], ◌∷◌, ◌++◌, ◌*◌, ◌≤◌, length};
ghost use Rattle.dimacs.specs.Decimal.{digits};
ghost use Rattle.dimacs.specs.Lines.{fields_of};
ghost use Rattle.writer.specs.Code.{Fits, Wrote};

// How many digits a number has in base ten.
fn width(v: usize) -> usize
    ensures { result ≡ length (digits v) }
{
    let mut n: usize = 1;
    let mut w = v;
    while 10 <= w {
        w = w / 10;
        n += 1;
    }
    n
}

// One byte.
fn put_byte(b: u8, at: usize, out: &mut [u8]) -> usize
    requires { Fits (b ∷ []) at out.old }
    ensures { Wrote (b ∷ []) at out.old result out.new }
{
    out[at] = b;
    at + 1
}

// Some bytes.
pub fn put_word(word: &[u8], at: usize, out: &mut [u8]) -> usize
    requires { Fits word.now at out.old }
    ensures { Wrote word.now at out.old result out.new }
{
    for (i, b) in word.iter().enumerate() {
        out[at + i] = *b;
    }
    at + word.len()
}

// A number in base ten, its last digit first.
fn put_number(v: usize, at: usize, out: &mut [u8]) -> usize
    requires { Fits (digits v) at out.old }
    ensures { Wrote (digits v) at out.old result out.new }
{
    let end = at + width(v);
    let mut w = v;
    for i in (at..end).rev() {
        out[i] = 48 + (w % 10) as u8;
        w = w / 10;
    }
    end
}

// A single space and a number.
fn put_field(v: usize, at: usize, out: &mut [u8]) -> usize
    requires { Fits (32 ∷ digits v) at out.old }
    ensures { Wrote (32 ∷ digits v) at out.old result out.new }
{
    let start = put_byte(32, at, out);
    put_number(v, start, out)
}

// Numbers, each after a single space.
fn put_fields(values: &[usize], at: usize, out: &mut [u8]) -> usize
    requires { Fits (fields_of values.now) at out.old }
    ensures { Wrote (fields_of values.now) at out.old result out.new }
{
    let mut end = at;
    for v in values {
        end = put_field(*v, end, out);
    }
    end
}

// The end of a line: numbers, each after a single space, and the line feed.
fn end_line(values: &[usize], at: usize, out: &mut [u8]) -> usize
    requires { Fits (fields_of values.now ++ (10 ∷ [])) at out.old }
    ensures { Wrote (fields_of values.now ++ (10 ∷ [])) at out.old result out.new }
{
    let feed = put_fields(values, at, out);
    put_byte(10, feed, out)
}

// A line that begins with some bytes.
pub fn put_line(word: &[u8], values: &[usize], at: usize, out: &mut [u8]) -> usize
    requires { Fits (word.now ++ fields_of values.now ++ (10 ∷ [])) at out.old }
    ensures { Wrote (word.now ++ fields_of values.now ++ (10 ∷ [])) at out.old result out.new }
{
    let fields = put_word(word, at, out);
    end_line(values, fields, out)
}

// A line that begins with a number.
pub fn put_numbers(first: usize, rest: &[usize], at: usize, out: &mut [u8]) -> usize
    requires { Fits (digits first ++ fields_of rest.now ++ (10 ∷ [])) at out.old }
    ensures { Wrote (digits first ++ fields_of rest.now ++ (10 ∷ [])) at out.old result out.new }
{
    let fields = put_number(first, at, out);
    end_line(rest, fields, out)
}

// How many bytes numbers take, each after a single space.
pub fn fields_width(values: &[usize]) -> usize
    requires { length values.now ≤ 8 }
    ensures value { result ≡ length (fields_of values.now) }
    ensures upper_bound { result ≤ 21 * length values.now }
{
    let mut sum: usize = 0;
    for v in values {
        sum += 1 + width(*v);
    }
    sum
}
