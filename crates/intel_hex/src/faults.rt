// What the first faulty line of a text has against it.
#[derive(Clone, Copy)]
pub enum Fault {
    // −30: a character, the line's end, a length or a type
    Line,
    // −31: the record's sum
    Sum,
    // −32: an address given twice or outside, or a gap at the end record
    Address,
    // −33: no end record, or text after it
    End,
}
