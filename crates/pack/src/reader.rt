// Where reading a pack has got to, and why it may stop.
ghost use Rattle.std.specs.Prelude.{◌≤◌, length};

// "Refused for the input": 1 to 8.
#[derive(Clone, Copy, PartialEq, Eq, Debug)]
pub enum Fault {
    // bytes end inside an item or before the next one
    CutShort = 1,
    // a number not in shortest form, or too large for its width
    Number = 2,
    // a pack version other than 1
    Version = 3,
    // a code, mark or flag outside its values
    Code = 4,
    // a lookup's name not above the previous one
    NameOrder = 5,
    // a field's field type index not below the number of field types
    TypeIndex = 6,
    // a sum above 4,294,967,295
    Sum = 7,
    // bytes after the last tree
    BytesLeft = 8,
}

// The fault, and where the offending item begins.
#[derive(Clone, Copy, PartialEq, Eq, Debug)]
pub struct InputRefusal {
    pub fault: Fault,
    pub offset: usize,
}

// The bytes of a pack, and the offset of the next item. A method takes it and gives the item with the next one, or tells what is wrong.
#[derive(Clone, Copy)]
pub struct Reader<'a> {
    pub(crate) bytes: &'a [u8],
    pub(crate) at: usize,
    ghost inside: { at ≤ length bytes.now },
}
