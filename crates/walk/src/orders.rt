// "A field's index runs from 0 and its order from 1": the first order, the next one, a later one, and back to an index. Else an order is `FieldIndex::order`
// of a field, or a set's.
ghost use Rattle.std.specs.Prelude.{◌≡◌, ◌+◌, ◌-◌, ◌≤◌, ◌<◌};

use pack::protocol::{FieldIndex, FieldOrder};

// The first field's.
pub fn first_order() -> FieldOrder
    ensures { result.0 ≡ 1 }
{
    FieldIndex(0).order()
}

// The next one: the field behind that of the order o has the index o.
pub fn next_order(o: FieldOrder) -> FieldOrder
    requires { o.0 < 4294967295 }
    ensures { result.0 ≡ o.0 + 1 }
{
    FieldIndex(o.0).order()
}

// The field of an order.
pub fn index_of(o: FieldOrder) -> FieldIndex
    requires { 1 ≤ o.0 }
    ensures { result.0 ≡ o.0 - 1 }
{
    FieldIndex(o.0 - 1)
}

// So many fields on.
pub fn later_order(o: FieldOrder, n: usize) -> FieldOrder
    requires { o.0 + n < 4294967296 }
    ensures { result.0 ≡ o.0 + n }
{
    FieldOrder(o.0 + n as u32)
}
