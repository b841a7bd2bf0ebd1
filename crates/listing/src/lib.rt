// Listings: each line of an input is graded under the defaults.
//
//     HEADER       the header of a listing
//     header       writes it into a lent buffer
//     list_line    writes the output line of a line into a lent buffer
//     list         reads a whole input and writes its listing
//     no_six       no line of a listing is one of verdict 6
#![tactic(auto)]

mod lister;
mod stream;

ghost use Rattle.std.specs.Prelude.{◌≡◌, ◌++◌, ◌+◌, ◌≤◌, length};
ghost use Rattle.arrayvec.specs.ArrayVec.{array_vec_len};
ghost use Rattle.listing.specs.Listing.{header_line, field, shown, listed, NoSix, Writes};

use arrayvec::ArrayVec;
use grading::{Rating, grade};
use grid::Refusal;
use itoa::Buffer;
use orders::order::{DEFAULT_CEILING, default_order};
pub use stream::{Failure, list};

// The header of a listing.
pub const HEADER: [u8; 20] = *b"line verdict trials\n";

// Writes a text at the start of a lent buffer, in which any line has room, and says how long it is; what is past it stays.
#[tactic(auto, using(crate::proofs::Written::written_copies))]
fn write(text: &[u8], out: &mut [u8; 64]) -> usize
    requires { length text.now ≤ 64 }
    ensures { Writes text.now out.old out.new result }
{
    out[..text.len()].copy_from_slice(text);
    text.len()
}

// Writes the header of a listing.
pub fn header(out: &mut [u8; 64]) -> usize
    ensures { Writes header_line out.old out.new result }
{
    write(&HEADER, out)
}

// Writes a number in decimal and a byte after it.
#[tactic(auto, using(std::proofs::Common::append_assoc), unfolding(crate::specs::Listing::field))]
fn field(text: &mut ArrayVec<u8, 64>, n: u64, after: u8)
    requires { array_vec_len text.old + 21 ≤ 64 }
    ensures written { text.new.items ≡ text.old.items ++ field n after }
    ensures short { array_vec_len text.new ≤ array_vec_len text.old + 21 }
{
    let mut buffer = Buffer::new();
    let digits = buffer.format(n).as_bytes();
    text.try_extend_from_slice(digits).unwrap();
    text.push(after);
}

// The output line of an answer.
#[tactic(auto, unfolding(crate::specs::Listing::shown))]
fn show(number: u64, answer: Result<Rating, Refusal>) -> ArrayVec<u8, 64>
    ensures { result.items ≡ shown number answer }
{
    let mut text = ArrayVec::new();
    field(&mut text, number, b' ');
    match answer {
        Ok(rating) => {
            field(&mut text, u64::from(rating.verdict.number()), b' ');
            field(&mut text, u64::from(rating.trials), b'\n');
        }
        Err(refusal) => {
            text.push(b'R');
            text.push(b' ');
            field(&mut text, u64::from(refusal.number()), b'\n');
        }
    }
    text
}

// The output line of a line of input, which is graded under the default order and ceiling.
#[tactic(auto, unfolding(crate::specs::Listing::listed))]
fn listed(number: u64, line: &[u8]) -> ArrayVec<u8, 64>
    ensures { result.items ≡ listed number line.now }
{
    let order = default_order();
    let mut completion = [0; 81];
    let answer = grade(line, &order, DEFAULT_CEILING, &mut completion);
    show(number, answer)
}

// Grades a line of input under the default order and ceiling, and writes its output line.
pub fn list_line(number: u64, line: &[u8], out: &mut [u8; 64]) -> usize
    ensures { Writes (listed number line.now) out.old out.new result }
{
    write(&listed(number, line), out)
}

/// No line of a listing has verdict 6: under the default ceiling no grading is stopped.
pub fn no_six()
    ensures { NoSix }
{}
