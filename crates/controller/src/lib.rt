// The engine for the controller's firmware: one exported function for each operation, each reply as one number.
#![tactic(auto)]

ghost use Rattle.std.specs.Prelude.{◌≡◌};
ghost use Rattle.reading.specs.Reading.{reading_of};
ghost use Rattle.stepping.specs.Stepping.{stepping_of};
ghost use Rattle.finishing.specs.Finishing.{finishing_of};
ghost use Rattle.counting.specs.Counting.{counting_of};
ghost use Rattle.verdicts.specs.Comparing.{comparing_of};
ghost use Rattle.joining.specs.Joining.{joining_of};
ghost use Rattle.rows.specs.Ringing.{ringing_of};
ghost use Rattle.entries.specs.Entering.{entering_of};
ghost use Rattle.books.specs.Playing.{playing_of};
ghost use Rattle.derivation_files.specs.Checking.{checking_of};
ghost use Rattle.matching.specs.Matching.{matching_of};
ghost use Rattle.codes.specs.Encoding.{read_number, check_number, match_number, coded_step, coded_finish, coded_count, coded_compare, coded_join, coded_rows, coded_enter, coded_book};

// Whether bytes, any number of them, are the text of one term.
#[unsafe(no_mangle)]
pub extern "C" fn controller_read(bytes: &[u8]) -> u64
    ensures { result ≡ read_number (reading_of bytes.now) }
{
    term_numbers::read_number(reading::read(bytes))
}

// One step of the term in the first `term_size` bytes of the area.
#[unsafe(no_mangle)]
pub extern "C" fn controller_step(area: &mut [u8], term_size: usize, work: &mut [u8]) -> u64
    ensures { (result, area.new, work.new)
        ≡ coded_step (stepping_of area.old term_size work.old) }
{
    term_numbers::step_number(stepping::step(area, term_size, work))
}

// The run of the term in the first `term_size` bytes of the area.
#[unsafe(no_mangle)]
pub extern "C" fn controller_finish(
    area: &mut [u8],
    term_size: usize,
    work: &mut [u8],
    fuel: u64,
) -> u64
    ensures { (result, area.new, work.new)
        ≡ coded_finish (finishing_of area.old term_size work.old fuel) }
{
    term_numbers::run_number(&finishing::finish(area, term_size, work, fuel))
}

// The run of the term in the first `term_size` bytes of the area, and how often it used each rule.
#[unsafe(no_mangle)]
pub extern "C" fn controller_finish_counted(
    area: &mut [u8],
    term_size: usize,
    work: &mut [u8],
    fuel: u64,
    counts: &mut [u8],
) -> u64
    ensures { (result, area.new, work.new, counts.new)
        ≡ coded_count (counting_of area.old term_size work.old fuel counts.old) }
{
    term_numbers::run_number(&counting::finish_counted(area, term_size, work, fuel, counts))
}

// Whether the terms in the first bytes of two areas have the same result.
#[unsafe(no_mangle)]
pub extern "C" fn controller_compare(
    first: &mut [u8],
    first_term: usize,
    second: &mut [u8],
    second_term: usize,
    work: &mut [u8],
    fuel: u64,
) -> u64
    ensures { (result, first.new, second.new, work.new)
        ≡ coded_compare (comparing_of first.old first_term second.old second_term work.old fuel) }
{
    term_numbers::compare_number(comparing::compare(
        first,
        first_term,
        second,
        second_term,
        work,
        fuel,
    ))
}

// The join of two terms, written into the area.
#[unsafe(no_mangle)]
pub extern "C" fn controller_join(f: &[u8], g: &[u8], area: &mut [u8]) -> u64
    ensures { (result, area.new) ≡ coded_join (joining_of f.now g.now area.old) }
{
    term_numbers::join_number(joining::join(f, g, area))
}

// The rows of a piece, stored in the table.
#[unsafe(no_mangle)]
pub extern "C" fn controller_rows(term: &[u8], bells: usize, table: &mut [u8]) -> u64
    ensures { (result, table.new) ≡ coded_rows (ringing_of term.now «bells» table.old) }
{
    term_numbers::rows_number(rows::ring(term, bells, table))
}

// Enters a finished result in the catalogue that the store keeps.
#[unsafe(no_mangle)]
pub extern "C" fn controller_enter(term: &[u8], store: &mut [u8]) -> u64
    ensures { (result, store.new) ≡ coded_enter (entering_of term.now store.old) }
{
    term_numbers::enter_number(catalogue::enter(term, store))
}

// Plays a book with the area, the work area and the store.
#[unsafe(no_mangle)]
pub extern "C" fn controller_book(
    book: &[u8],
    area: &mut [u8],
    work: &mut [u8],
    store: &mut [u8],
    fuel: u64,
) -> u64
    ensures { (result, area.new, work.new, store.new)
        ≡ coded_book (playing_of book.now area.old work.old store.old fuel) }
{
    term_numbers::book_number(book::play(book, area, work, store, fuel))
}

// Whether each line of a derivation file follows.
#[unsafe(no_mangle)]
pub extern "C" fn controller_check(file: &[u8]) -> u64
    ensures { result ≡ check_number (checking_of file.now) }
{
    file_numbers::check_number(checking::check_derivation(file))
}

// Whether the last lines of two derivation files claim the same context and type.
#[unsafe(no_mangle)]
pub extern "C" fn controller_match(first: &[u8], second: &[u8]) -> u64
    ensures { result ≡ match_number (matching_of first.now second.now) }
{
    file_numbers::match_number(matching::match_claims(first, second))
}
