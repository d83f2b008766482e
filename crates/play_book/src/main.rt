// The program that plays a book: the book from standard input, one line to standard output.
// Where standard input cannot be read or standard output cannot be written, one line on standard error says so.
#![tactic(auto)]

ghost use Rattle.std.specs.Prelude.{◌≡◌, take};
ghost use Rattle.slices.specs.Put.{put, behind};
ghost use Rattle.answering.specs.Program.{unless_error};
ghost use Rattle.book_answers.specs.Program.{book_program};

use std::io;

// The line for standard output, put at the start of `out`: none where standard input could not be read. What was read stands at the front
// of `book`.
#[tactic(auto, unfolding(slices::specs::Put::put, slices::specs::Put::behind))]
fn answer(read: io::Result<usize>, book: &[u8], out: &mut [u8]) -> usize
    ensures { (out.new ≡ put 0 (unless_error read (λ n. book_program (take n book.now))) out.old)
        × (result ≡ behind 0 (unless_error read (λ n. book_program (take n book.now))) out.old) }
{
    let Ok(size) = read else {
        return 0;
    };
    book_answers::answer_book(slices::cut(book, 0, size), out)
}

fn main(rt: HostRuntime) {
    let mut book = [0u8; books::BOOK_LIMIT + 1];
    let mut out = [0u8; 16512];
    serving::serve(
        &rt,
        "play_book",
        &mut book,
        &mut out,
        |book| whole_input::read_all(&mut rt.stdin(), book),
        |read, book, out| answer(read, book, out),
    );
}
