// The rules of the writer: definitions in specs/, and their laws and theorems in proofs/, including all of demand 3. The code is in `writer`.
#![tactic(auto)]

// Why no page was made: `Place` (W1), `Edition` (W2), `BadEntry` (W3, a list or the fields), `SectionAfterEdition` (W4, an entry of a section after
// the edition), `TooLong` (W5).
#[derive(Clone, Copy)]
pub enum WriteError {
    Place,
    Edition,
    BadEntry,
    SectionAfterEdition,
    TooLong,
}
