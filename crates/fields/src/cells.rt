// Cells of the lent memory, set to the bytes they are to hold. All that changes memory does it here (02, Req 05).
ghost use Rattle.std.specs.Prelude.{◌≡◌, length};

// 02, Req 05, "Write only cells that change": a write wears a memory part, so a cell that holds its byte already is read and not written. A contract tells what
// the cells hold afterwards and cannot tell this: it is read here, and shown by running.
// By index: of cells lent by a zip over iter_mut a proof knows no bytes afterwards.
pub(crate) fn set_cells(cells: &mut [u8], wanted: &[u8])
    requires { length cells.old ≡ length wanted.now }
    ensures { cells.new ≡ wanted.now }
{
    for i in 0..wanted.len() {
        if cells[i] != wanted[i] {
            cells[i] = wanted[i];
        }
    }
}
