// A refusal in words.
use pack::load::{Fault, InputRefusal, Refusal};
use std::fmt;

// What is wrong with an item of the pack.
fn reason(fault: Fault) -> &'static str {
    match fault {
        Fault::CutShort => "bytes end inside an item or before the next one",
        Fault::Number => "a number not in shortest form, or too large for its width",
        Fault::Version => "pack version other than 1",
        Fault::Code => "a code, mark or flag outside its values",
        Fault::NameOrder => "a lookup's name not above the previous one",
        Fault::TypeIndex => "a field's field type index not below the number of field types",
        Fault::Sum => "a sum above 4,294,967,295",
        Fault::BytesLeft => "bytes after the last tree",
    }
}

#[derive(Clone, Copy)]
pub struct InWords(pub Refusal);

impl fmt::Display for InWords {
    fn fmt<W: fmt::Write>(&self, f: &mut fmt::Formatter<W>) -> fmt::Result {
        match self.0 {
            Refusal::Input(InputRefusal { fault, offset }) => write!(
                f,
                "refused {} at byte {offset}: {}",
                fault as u32,
                reason(fault)
            ),
            Refusal::TooLong => write!(f, "refused 9: pack longer than 1,048,576 bytes"),
            Refusal::Work(n) => write!(
                f,
                "refused 21: work buffer shorter than the records: needed {n}"
            ),
            Refusal::Findings(n) => write!(
                f,
                "refused 22: findings buffer below 8 numbers a finding: needed {n}"
            ),
            Refusal::Absent => write!(
                f,
                "refused 23: tree, PGN, field or finding named is not in the pack"
            ),
            Refusal::Place(n) => write!(
                f,
                "refused 24: text buffer shorter than the place text: needed {n}"
            ),
            Refusal::Visits(n) => write!(
                f,
                "refused 25: visit buffer shorter than the readings: needed {n}"
            ),
        }
    }
}
