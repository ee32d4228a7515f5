// Lines of a text: where one ends, how it begins, and whether it is a comment; and the numbers of a line.
#![tactic(auto)]

pub mod numbers;

ghost use Rattle.std.specs.Prelude.{◌≡◌, drop};
ghost use Rattle.dimacs.specs.Lines.{split};
ghost use Rattle.dimacs.specs.Read.{after};
ghost use Rattle.scanner.specs.Capped.{commented};
ghost use Rattle.scanner.specs.Code.{split_by, in_text, begun};

// Where the line feed stands that ends the line at a position, if there is one.
pub fn line_feed(text: &[u8], at: usize) -> Option<usize>
    ensures { (split_by text.now at result ≡ split (drop at text.now)) × in_text text.now at result }
{
    for i in at..text.len() {
        if text[i] == 10 {
            return Some(i);
        }
    }
    None
}

// Whether a line begins with the bytes of `mark`.
pub fn begins(line: &[u8], mark: &[u8]) -> bool
    ensures { begun result mark.now line.now ≡ after mark.now line.now }
{
    for (i, b) in mark.iter().enumerate() {
        if !numbers::holds(line, i, *b) {
            return false;
        }
    }
    true
}

// Whether a line that begins with `c` is a comment: `c` alone, or a space after it.
pub fn is_comment(line: &[u8]) -> bool
    ensures { result ≡ commented (drop 1 line.now) }
{
    if line.len() <= 1 {
        return true;
    }
    numbers::holds(line, 1, 32)
}
