// Checking derivation files; what they are and what is answered stands in derivation_files.
#![tactic(auto)]

ghost use Rattle.std.specs.Prelude.{◌≡◌, ◌≤◌, ◌==◌, [], length, count_by, IfOk};
ghost use Rattle.calculus.specs.Limits.{line_limit};
ghost use Rattle.slices.specs.Split.{line_feed, lines, last_byte};
ghost use Rattle.derivation_files.specs.Checking.{check_lines, checking_of};
ghost use Rattle.fields.specs.Fields.{texts_at};
ghost use Rattle.checking.specs.Answer.{refusal_of, answer_of, lines_of};
ghost use Rattle.checking.specs.Claim.{claim_of};

use derivation_lines::{Fault, check_line};
use fields::{Judged, six_at};
use reading::Refusal;
use slices::Span;

// What checking refuses a file for; specs/Answer.antt gives the number and the line of each case.
#[derive(Clone, Copy)]
pub enum Refused {
    // The file is over 65,536 bytes.
    FileTooLong,
    // The file is empty.
    FileEmpty,
    // The last byte is no line feed.
    NoLineEnd,
    // The file has over 1,024 lines.
    TooManyLines,
    // What is wrong with the first bad line, and which that is.
    BadLine(Fault, usize),
}

impl Refusal for Refused {
    ghost refusal = { refusal_of };

    fn number(&self) -> u64 {
        match *self {
            Refused::FileTooLong => 10,
            Refused::FileEmpty => 11,
            Refused::NoLineEnd => 12,
            Refused::TooManyLines => 13,
            Refused::BadLine(fault, _) => fault.number(),
        }
    }

    fn place(&self) -> usize {
        match *self {
            Refused::BadLine(_, line) => line,
            _ => 0,
        }
    }
}

// What is found of a file whose every line follows: the number of lines, and where the context, the term and the type of the last stand.
#[derive(Clone, Copy)]
pub struct Checked {
    pub lines: usize,
    pub claim: Judged,
}

// Checks a derivation file of any bytes, and answers the number of lines.
pub fn check_derivation(file: &[u8]) -> Result<usize, Refused>
    ensures { answer_of result ≡ checking_of file.now }
{
    Ok(check_claim(file)?.lines)
}

// Checks a derivation file of any bytes, and finds where the claim of its last line stands.
pub fn check_claim(file: &[u8]) -> Result<Checked, Refused>
    ensures answer { answer_of (lines_of result) ≡ checking_of file.now }
    ensures claim { IfOk result (λ checked. texts_at checked.claim file.now ≡ claim_of file.now) }
{
    if calculus::FILE_LIMIT < file.len() {
        return Err(Refused::FileTooLong);
    }
    if file.len() == 0 {
        return Err(Refused::FileEmpty);
    }
    if slices::byte_at(file, file.len() - 1) != slices::LINE_FEED {
        return Err(Refused::NoLineEnd);
    }
    if calculus::LINE_LIMIT < line_count(file) {
        return Err(Refused::TooManyLines);
    }
    check_lines(file)
}

// The number of lines: each ends with a line feed.
// Kept: `filter` and `count` are slower, as the compiler looks at one byte at a time there, and at many in this loop.
fn line_count(file: &[u8]) -> usize
    ensures { result ≡ count_by (λ b. b == line_feed) file.now }
{
    let mut count: usize = 0;
    for b in file {
        if *b == slices::LINE_FEED {
            count += 1;
        }
    }
    count
}

// Line by line: the first bad line, or their number and the claim of the last.
// Of the lines passed it keeps where they begin, and where the claim of the last stands.
fn check_lines(file: &[u8]) -> Result<Checked, Refused>
    requires { (last_byte file.now ≡ line_feed) × (length (lines file.now) ≤ line_limit) }
    ensures answer { answer_of (lines_of result) ≡ check_lines 0 [] (lines file.now) }
    ensures claim { IfOk result (λ checked. texts_at checked.claim file.now ≡ claim_of file.now) }
{
    let nothing = Span { from: 0, to: 0 };
    let mut claim = Judged {
        context: nothing,
        term: nothing,
        ty: nothing,
    };
    let mut starts = [0usize; calculus::LINE_LIMIT];
    let mut n: usize = 0;
    let mut at: usize = 0;
    // Kept: a `while`, since each turn goes on behind a line.
    while at < file.len() {
        let line = six_at(file, at);
        if let Err(fault) = check_line(file, &starts[..n], line) {
            return Err(Refused::BadLine(fault, n + 1));
        }
        starts[n] = at;
        n += 1;
        at = line.second.to + 1;
        claim = line.own;
    }
    Ok(Checked { lines: n, claim })
}
