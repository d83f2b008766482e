// The arena: cells of 64 bits, each a letter, two indices of cells and a size. A cell is written at the top, once, and never changed, so
// that what one cell stands for stays so, and several may share their parts.
#![tactic(auto)]

ghost use Rattle.std.specs.Prelude.{◌≡◌, ◌+◌, ◌<◌, get_or, set};
ghost use Rattle.cells.specs.Cell as cell;
ghost use Rattle.cells.specs.Cell.{cell_limit, size_limit, letter_in, first_in, second_in, size_in, Free, Joinable};

// The most cells of an arena.
pub const CELL_LIMIT: usize = 65536;

// What stands in the place of a letter in the list's cells: a term behind the part in focus, the argument of that part, or the pair that
// it is the argument of.
// Kept: numbers, and no enum, since a cell is one number (no heap, fixed memory), and the kind stands in it where a letter else stands.
pub const PENDING: u8 = 0;

pub const ARGUMENT: u8 = 1;

pub const FUNCTION: u8 = 2;

// The letter of a cell.
pub fn letter_in(cell: u64) -> u8
    ensures { result ≡ letter_in cell }
{
    (cell % 256) as u8
}

// The index of its first part.
pub fn first_in(cell: u64) -> usize
    ensures { result ≡ first_in cell }
{
    (cell / 65536 % 65536) as usize
}

// The index of its second part.
pub fn second_in(cell: u64) -> usize
    ensures { result ≡ second_in cell }
{
    (cell / 4294967296 % 65536) as usize
}

// The size of its term.
pub fn size_in(cell: u64) -> usize
    ensures value { result ≡ size_in cell }
    ensures bounded { result < size_limit }
{
    (cell / 281474976710656) as usize
}

// The cell that holds these.
pub fn packed(letter: u8, first: usize, second: usize, size: usize) -> u64
    requires { (first < cell_limit) × (second < cell_limit) × (size < size_limit) }
    ensures { result ≡ cell.packed letter first second size }
{
    u64::from(letter)
        + first as u64 * 65536
        + second as u64 * 4294967296
        + size as u64 * 281474976710656
}

// Writes the node of two terms at the top.
// Kept: the cells and the top are two parameters here and in what builds on this, and no struct: a clause names a slice that a struct
// lends by its entry and its exit, so each contract would be longer.
pub fn node(cells: &mut [u64], top: usize, letter: u8, first: usize, second: usize)
    requires { Joinable cells.old top first second }
    ensures { cells.new ≡ set cells.old top
        (cell.packed letter first second (1 + size_in (get_or cells.old first 0) + size_in (get_or cells.old second 0))) }
{
    let size = 1 + size_in(cells[first]) + size_in(cells[second]);
    cells[top] = packed(letter, first, second, size);
}

// Writes a cell of the list at the top: its kind, its term, the rest of the list.
pub fn link(cells: &mut [u64], top: usize, kind: u8, term: usize, rest: usize)
    requires free { Free cells.old top }
    requires short { (term < cell_limit) × (rest < cell_limit) }
    ensures { cells.new ≡ set cells.old top (cell.packed kind term rest 0) }
{
    cells[top] = packed(kind, term, rest, 0);
}
